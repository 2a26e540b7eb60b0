ghost use Rattle.std.specs.Prelude.{◌≡◌};
ghost use Rattle.fields.specs.declared.read_error.ReadError.TheVariants.{OutOfMemory};

use std::alloc::{AllocError, AllocFailed as NoRoom};

/// Why bytes were not read: they stand for nothing, or memory is short, which says nothing of the bytes.
#[derive(Clone, Copy, PartialEq, Eq, Debug)]
pub enum ReadError {
    Malformed,
    OutOfMemory(AllocError),
}

impl From<AllocError> for ReadError {
    ghost from_gives = { λ short e. e ≡ OutOfMemory short };

    fn from(short: AllocError) -> ReadError {
        ReadError::OutOfMemory(short)
    }
}

impl<T: Drop> From<NoRoom<T>> for ReadError {
    ghost from_gives = { λ _ e. (short : _) × (e ≡ OutOfMemory short) };

    fn from(refused: NoRoom<T>) -> ReadError {
        ReadError::OutOfMemory(refused.into())
    }
}
