ghost use Rattle.std.specs.Prelude.{◌≡◌, ℕ, false};
ghost use Rattle.answers.specs.Answers.{said};
ghost use Rattle.script.specs.Calls.{asked_store, print};
ghost use Rattle.probe.specs.Performing.{NotShort, Performs, text_or_failure};

use answers::Answer;
use forest::{Failure, Fault, Reason, Store};
use printing::print;
use script::StoreCall;
use std::alloc::Global;

/// The buffer that is tried first; most texts are shorter.
const FIRST_PLACES: u32 = 1_048_576;

/// Performs a call on a store. What is answered to it and what the store means then follow from what the store meant before.
pub fn perform<S: Store>(alloc: Global, store: &mut S, call: &StoreCall) -> Answer
    ensures { Performs S.Store.LAYER (asked_store call.now) (S.Store.means store.old) (said result) (S.Store.means store.new) }
{
    match call {
        StoreCall::Space => Answer::Measures {
            count: store.count(),
            space: store.space(),
        },
        StoreCall::Integer(value) => store.make_integer(*value).into(),
        StoreCall::Boolean(value) => store.make_boolean(*value).into(),
        StoreCall::String(text) => store.make_string(text).into(),
        StoreCall::Element { tag, children } => store.make_element(*tag, children).into(),
        StoreCall::Print { places, handles } => {
            printed(alloc, store, *places, handles).map_or_else(Answer::from, Answer::Printed)
        }
        StoreCall::Capture(_) | StoreCall::Table { .. } | StoreCall::Tray(_) => Answer::Unsupported,
    }
}

/// The text of the trees that the handles name, printed into a buffer of so many places. A large buffer is only taken where a smaller one
/// was too short.
fn printed<S: Store>(
    alloc: Global,
    store: &S,
    places: u32,
    handles: &[u32],
) -> Result<Vec<u8>, Failure>
    ensures { Performs S.Store.LAYER (print places handles.now) (S.Store.means store.now) (text_or_failure result) (S.Store.means store.now) }
{
    if places > FIRST_PLACES {
        let text = print_into(alloc, store, FIRST_PLACES, handles);
        if !was_short(&text) {
            return text;
        }
    }
    print_into(alloc, store, places, handles)
}

/// Whether a text was refused for its buffer.
fn was_short(text: &Result<Vec<u8>, Failure>) -> bool
    ensures { result ≡ false → NotShort (text_or_failure text.now) }
{
    matches!(
        text,
        Err(Failure::Refused(Fault {
            reason: Reason::BufferShort,
            ..
        }))
    )
}

/// The text, printed into a new buffer.
fn print_into<S: Store>(
    alloc: Global,
    store: &S,
    places: u32,
    handles: &[u32],
) -> Result<Vec<u8>, Failure>
    ensures { Performs S.Store.LAYER (print places handles.now) (S.Store.means store.now) (text_or_failure result) (S.Store.means store.now) }
{
    let mut buffer = vec![in alloc; 0u8; places as usize]?;
    let length = print(alloc, store, handles, &mut buffer)?;
    buffer.truncate(length);
    Ok(buffer)
}
