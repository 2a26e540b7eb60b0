ghost use Rattle.std.specs.Prelude.{◌≡◌, ◌∷◌, ◌++◌, IfOk, OnOk};
ghost use Rattle.answers.specs.Answers.{spaced, sized, outcome, line_text, said};

use crate::answer::Answer;
use forest::{Fault, Space};
use std::alloc::{AllocError, Global};
use std::io::{self, Write};

/// Stands for a function where none was being typed.
const NO_FUNCTION: u32 = 255;

/// The line that answers a call, without its line feed: the number of the call's line, the word of the call and the answer.
pub fn write_answer(
    alloc: Global,
    line: u64,
    word: &[u8],
    answer: &Answer,
) -> Result<Vec<u8>, AllocError>
    ensures { IfOk result (λ v. v.items ≡ line_text line word.now (said answer.now)) }
{
    let word = match answer {
        Answer::Malformed => b"?".as_slice(),
        _ => word,
    };
    let mut text = format!(in alloc; "{line} ")?.into_bytes();
    text.extend_from_slice(word)?;
    match push_outcome(&mut text, answer) {
        Ok(()) => Ok(text),
        // A vector takes all that is written to it while memory suffices.
        Err(_) => Err(AllocError),
    }
}

/// Adds what an answer says behind the word of its call.
fn push_outcome(text: &mut Vec<u8>, answer: &Answer) -> io::Result<()>
    ensures { OnOk result (text.new.items ≡ text.old.items ++ (32 ∷ outcome (said answer.now))) }
{
    match answer {
        Answer::Done => write!(text, " ok"),
        Answer::Number(number) => write!(text, " ok {number}"),
        Answer::Measures { count, space } => {
            let Space {
                trees,
                children,
                bytes,
            } = *space;
            write!(text, " ok {count} {trees} {children} {bytes}")
        }
        Answer::Checked { row, made } => write!(text, " ok {row} {made}"),
        Answer::Numbers(numbers) => {
            write!(text, " ok")?;
            push_numbers(text, numbers)
        }
        Answer::Printed(printed) => {
            write!(text, " ok")?;
            push_printed(text, printed)
        }
        Answer::Refused(Fault { reason, layer, row }) => {
            let reason = u8::from(*reason);
            write!(text, " refused {reason} {layer} {row}")
        }
        Answer::CheckRefused { fault, function } => {
            let Fault { reason, layer, row } = *fault;
            let reason = u8::from(reason);
            let function = function.unwrap_or(NO_FUNCTION);
            write!(text, " refused {reason} {layer} {row} {function}")
        }
        Answer::Malformed => write!(text, " malformed"),
        Answer::Unsupported => write!(text, " unsupported"),
    }
}

/// Adds numbers in decimal, a space before each.
fn push_numbers(text: &mut Vec<u8>, numbers: &[u32]) -> io::Result<()>
    ensures { OnOk result (text.new.items ≡ text.old.items ++ spaced numbers.now) }
{
    for number in numbers {
        write!(text, " {number}")?;
    }
    Ok(())
}

/// Adds the length of a text that was printed, and the text unless it is empty.
fn push_printed(text: &mut Vec<u8>, printed: &[u8]) -> io::Result<()>
    ensures { OnOk result (text.new.items ≡ text.old.items ++ sized printed.now) }
{
    write!(text, " {}", printed.len())?;
    if !printed.is_empty() {
        text.push(b' ')?;
        text.extend_from_slice(printed)?;
    }
    Ok(())
}
