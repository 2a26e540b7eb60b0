ghost use Rattle.std.specs.Prelude.{◌≡◌};
ghost use Rattle.forest.specs.Faults.{faulted};
ghost use Rattle.forest.specs.declared.failure.Failure.TheVariants.{Refused};
ghost use Rattle.types.specs.Parts.{Root};
ghost use Rattle.types.specs.Tables.{rows_of};
ghost use Rattle.positions.specs.Built.{types_of};
ghost use Rattle.validation.specs.Validating.{Judged, Validated};
ghost use Rattle.validation.specs.Walking.{OneWayTypes};

use crate::marks::Marks;
use crate::reading::Walk;
use forest::{Failure, Fault, Reason, Store, handles_in_range};
use nesting::nested_too_deep;
use positions::{Positions, ask};
use std::alloc::Global;
use types::TypeRows;

/// The layer of runs, as its faults name it.
const RUNS: u8 = 3;

/// How input is refused.
fn refusal(reason: Reason) -> Failure
    ensures { result ≡ Refused (faulted reason 3 0) }
{
    Failure::Refused(Fault::new(reason, RUNS, 0))
}

/// Refuses input that does not belong to a one-way root.
fn judge<S: Store>(
    alloc: Global,
    store: &S,
    positions: &Positions,
    root: u32,
    handles: &[u32],
) -> Result<(), Failure>
    requires one_way { OneWayTypes positions.now }
    requires root { Root (types_of positions.now) root }
    ensures { Judged (types_of positions.now) root (S.Store.means store.now).trees handles.now result }
{
    let trees = store.count();
    if !handles_in_range(handles, trees) {
        return Err(refusal(Reason::NoSuchHandle));
    }
    if nested_too_deep(alloc, store, handles)? {
        return Err(refusal(Reason::NestedTooDeep));
    }
    let mut marks = Marks::new(alloc, trees)?;
    let walk = Walk { store, positions };
    if walk.forest_belongs(handles, root, &mut marks) {
        Ok(())
    } else {
        Err(refusal(Reason::OutsideType))
    }
}

/// Refuses input that does not belong to a root, in a table whose contents are roots and whose roots are one-way; other tables are refused first.
pub fn validate<S: Store>(
    alloc: Global,
    store: &S,
    types: TypeRows,
    root: u32,
    handles: &[u32],
) -> Result<(), Failure>
    ensures { Validated (rows_of types) root (S.Store.means store.now).trees handles.now result }
{
    match ask(types, types.is_root(root)) {
        Ok(positions) => judge(alloc, store, &positions, root, handles),
        Err(fault) => Err(Failure::Refused(fault)),
    }
}
