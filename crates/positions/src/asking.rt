ghost use Rattle.std.specs.Prelude.{◌≡◌, true, MatchResult};
ghost use Rattle.forest.specs.Faults.{faulted};
ghost use Rattle.types.specs.Asking.{Unaskable, TellsOneWay};
ghost use Rattle.types.specs.Tables.{rows_of};
ghost use Rattle.positions.specs.Asked.{Answerable};

use crate::tables::Positions;
use forest::{Fault, Reason};
use types::TypeRows;

/// The layer of questions about types.
const TYPES: u8 = 2;

fn refusal(reason: Reason, row: u32) -> Fault
    ensures { result ≡ faulted reason 2 row }
{
    Fault::new(reason, TYPES, row)
}

/// The positions of types that can be asked about, where `there` says whether what is asked about is there.
pub fn ask(types: TypeRows, there: bool) -> Result<Positions, Fault>
    ensures { MatchResult result (Answerable types (there ≡ true)) (Unaskable (rows_of types) (there ≡ true)) }
{
    if let Some(row) = types.first_unrooted() {
        return Err(refusal(Reason::TypeMissing, row));
    }
    if !there {
        return Err(refusal(Reason::TypeMissing, 0));
    }
    let positions = Positions::of(types);
    match positions.first_ambiguous() {
        Some(row) => Err(refusal(Reason::Ambiguous, row)),
        None => Ok(positions),
    }
}

/// Whether a root is one-way: no two different overlapping items may come next at one place of it.
pub fn is_one_way(types: TypeRows, root: u32) -> Result<bool, Fault>
    ensures { TellsOneWay (rows_of types) root result }
{
    if types.is_root(root) {
        Ok(Positions::of(types).is_one_way(root))
    } else {
        Err(refusal(Reason::TypeMissing, 0))
    }
}
