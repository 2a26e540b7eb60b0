ghost use Rattle.std.specs.Prelude.{◌≡◌};
ghost use Rattle.answers.specs.Answers.{said, refused, handle_or_fault, done_or_fault, failed};

use forest::{Failure, Fault, Space};

/// What is answered to a line of a script.
#[derive(Drop)]
pub enum Answer {
    /// The call was done, and there is nothing to tell.
    Done,
    /// The call was done, and gave a handle, a place or a number of trees.
    Number(u32),
    /// The number of trees of a store, and its space.
    Measures { count: u32, space: Space },
    /// The check was accepted: the type row of the query, and how many rows were made.
    Checked { row: u32, made: u32 },
    /// The call was done, and gave these numbers.
    Numbers(Vec<u32>),
    /// The call printed this text. Bytes and no String: they are what stands in the buffer that it was printed into.
    Printed(Vec<u8>),
    Refused(Fault),
    /// The check refused; the number of the function that was typed, if one was.
    CheckRefused { fault: Fault, function: Option<u32> },
    /// The line is no call.
    Malformed,
    /// The call is past a limit of the program's own, or memory is short.
    Unsupported,
}

/// A refusal.
impl From<Fault> for Answer {
    ghost from_gives = { λ fault answer. said answer ≡ refused fault };

    fn from(fault: Fault) -> Answer {
        Answer::Refused(fault)
    }
}

/// The refusal, or that memory is short.
impl From<Failure> for Answer {
    ghost from_gives = { λ failure answer. said answer ≡ failed failure };

    fn from(failure: Failure) -> Answer {
        match failure {
            Failure::Refused(fault) => Answer::from(fault),
            Failure::OutOfMemory => Answer::Unsupported,
        }
    }
}

/// The handle or the place that a call gave, or its refusal.
impl From<Result<u32, Fault>> for Answer {
    ghost from_gives = { λ made answer. said answer ≡ handle_or_fault made };

    fn from(made: Result<u32, Fault>) -> Answer {
        made.map_or_else(Answer::from, Answer::Number)
    }
}

/// Nothing but that the call was done, or its refusal.
impl From<Result<(), Fault>> for Answer {
    ghost from_gives = { λ done answer. said answer ≡ done_or_fault done };

    fn from(done: Result<(), Fault>) -> Answer {
        done.map_or_else(Answer::from, |()| Answer::Done)
    }
}
