ghost use Rattle.std.specs.Prelude.{◌≡◌};
ghost use Rattle.forest.specs.Faults.{faulted};
ghost use Rattle.forest.specs.declared.failure.Failure.TheVariants.{Refused};
ghost use Rattle.printing.specs.Outcomes.{layer};

use forest::{Failure, Fault, Reason};

/// The layer of runs and printing, as its faults name it.
pub const LAYER: u8 = 3;

/// How this layer refuses.
pub(crate) fn refusal(reason: Reason) -> Failure
    ensures { result ≡ Refused (faulted reason layer 0) }
{
    Failure::Refused(Fault::new(reason, LAYER, 0))
}
