ghost use Rattle.std.specs.Prelude.{◌≡◌};
ghost use Rattle.forest.specs.declared.failure.Failure.TheVariants.{OutOfMemory};

use crate::fault::Fault;
use std::alloc::{AllocError, AllocFailed as NoRoom};

/// How a call that needs memory fails: it refuses, or memory is short. Either way it leaves everything as it was.
#[derive(Clone, Copy, PartialEq, Eq, Debug)]
pub enum Failure {
    Refused(Fault),
    OutOfMemory,
}

impl From<AllocError> for Failure {
    ghost from_gives = { λ _ f. f ≡ OutOfMemory };

    fn from(_short: AllocError) -> Failure {
        Failure::OutOfMemory
    }
}

impl<T: Drop> From<NoRoom<T>> for Failure {
    ghost from_gives = { λ _ f. f ≡ OutOfMemory };

    fn from(_short: NoRoom<T>) -> Failure {
        Failure::OutOfMemory
    }
}
