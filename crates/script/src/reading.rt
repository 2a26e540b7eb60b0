use crate::call::Call;

/// What a line of a script says.
// A malformed line is answered like any other: as a case here, and no error, it leaves `?` to short memory alone.
#[derive(PartialEq, Eq, Drop)]
pub enum Reading {
    /// The line asks for nothing.
    Silent,
    /// The line is no call.
    Malformed,
    Call(Call),
}
