use crate::stop::Stop;
use std::env;

/// What the command line asks for.
#[derive(Drop)]
pub struct Options {
    /// Whether a refused check is explained in words.
    pub explain: bool,
    /// The capture file to begin with.
    pub capture: Option<String>,
}

impl Options {
    /// Reads the words of the command line: `--explain` and a capture file, in any order, or one of them, or none.
    pub fn read(rt: &HostRuntime) -> Result<Options, Stop> {
        let mut words = env::args(rt)?;
        let _program = words.next();
        let mut options = Options {
            explain: false,
            capture: None,
        };
        for word in words {
            options.take(word)?;
        }
        Ok(options)
    }

    /// Takes one word: each option at most once, and one file at most.
    fn take(&mut self, word: String) -> Result<(), Stop> {
        if word.as_str() == "--explain" && !self.explain {
            self.explain = true;
            Ok(())
        } else if self.capture.is_none() && !word.starts_with('-') {
            self.capture = Some(word);
            Ok(())
        } else {
            Err(Stop::Usage)
        }
    }
}
