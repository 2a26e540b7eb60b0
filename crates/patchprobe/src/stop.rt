use std::alloc::AllocError;
use std::{fmt, io};

/// Why the program ends before its input does.
#[derive(Drop)]
pub enum Stop {
    /// The words of the command line are not what it takes.
    Usage,
    OutOfMemory,
    /// The capture file cannot be used, for the reason that the text gives.
    File(String),
    /// Standard input or output failed, or the command line could not be read.
    Io(io::Error),
}

impl From<AllocError> for Stop {
    fn from(_: AllocError) -> Stop {
        Stop::OutOfMemory
    }
}

impl From<io::Error> for Stop {
    fn from(error: io::Error) -> Stop {
        Stop::Io(error)
    }
}

/// What `main` prints of its error is its Debug form, and this program prints a text in quotes.
impl fmt::Debug for Stop {
    fn fmt<W: fmt::Write>(&self, f: &mut fmt::Formatter<W>) -> fmt::Result {
        match self {
            Stop::Usage => write!(
                f,
                "{:?}",
                "usage: patchprobe [--explain] [CAPTURE-FILE] < SCRIPT"
            ),
            Stop::OutOfMemory => write!(f, "{:?}", "memory is short"),
            Stop::File(text) => write!(f, "{text:?}"),
            Stop::Io(error) => write!(f, "{error:?}"),
        }
    }
}
