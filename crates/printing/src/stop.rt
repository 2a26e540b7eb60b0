ghost use Rattle.std.specs.Prelude.{◌≡◌};
ghost use Rattle.printing.specs.Writing.{failure_of};
ghost use Rattle.printing.specs.declared.stop.Stop.TheVariants.{OutOfMemory};

use crate::refusal::refusal;
use forest::{Failure, Reason};
use std::alloc::{AllocError, AllocFailed as NoRoom};

/// Why a text takes no more bytes. It is small, since each byte that is written may stop.
#[derive(Clone, Copy, PartialEq, Eq, Debug)]
pub(crate) enum Stop {
    TooLong,
    OutOfMemory,
}

impl From<AllocError> for Stop {
    ghost from_gives = { λ _ stop. stop ≡ OutOfMemory };

    fn from(_short: AllocError) -> Stop {
        Stop::OutOfMemory
    }
}

impl<T: Drop> From<NoRoom<T>> for Stop {
    ghost from_gives = { λ _ stop. stop ≡ OutOfMemory };

    fn from(_short: NoRoom<T>) -> Stop {
        Stop::OutOfMemory
    }
}

/// A text that is too long has a buffer that is too short.
impl From<Stop> for Failure {
    ghost from_gives = { λ stop failure. failure ≡ failure_of stop };

    fn from(stop: Stop) -> Failure {
        match stop {
            Stop::TooLong => refusal(Reason::BufferShort),
            Stop::OutOfMemory => Failure::OutOfMemory,
        }
    }
}
