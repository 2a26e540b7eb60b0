ghost use Rattle.printing.specs.Outcomes.{Prints};

use crate::printer::Printer;
use crate::refusal::refusal;
use forest::{Failure, Reason, Store, handles_in_range};
use nesting::nested_too_deep;
use std::alloc::Global;

/// Prints the trees that the handles name into the front of the buffer, and says how many bytes that took: the caller brings the memory.
/// It refuses a handle that is not there, then trees that are nested too deep, then a buffer that is too short.
pub fn print<S: Store>(
    alloc: Global,
    store: &S,
    handles: &[u32],
    buffer: &mut [u8],
) -> Result<usize, Failure>
    ensures { Prints (S.Store.means store.now).trees handles.now buffer.old result buffer.new }
{
    if !handles_in_range(handles, store.count()) {
        return Err(refusal(Reason::NoSuchHandle));
    }
    if nested_too_deep(alloc, store, handles)? {
        return Err(refusal(Reason::NestedTooDeep));
    }
    let mut printer = Printer::new(alloc, store, buffer.len());
    printer.write_forest(handles)?;
    let text = printer.text();
    buffer[..text.len()].copy_from_slice(text);
    Ok(text.len())
}
