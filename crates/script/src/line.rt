ghost use Rattle.std.specs.Prelude.{◌≡◌, IfOk};
ghost use Rattle.fields.specs.Reading.{Reads};
ghost use Rattle.script.specs.Calls.{asked};
ghost use Rattle.script.specs.Lines.{meaning_of, call_in, read_line, Named};

use crate::call::Call;
use crate::forms::read_form;
use crate::reading::Reading;
use fields::{ReadError, split};
use std::alloc::{AllocError, Global};

/// The call that a line's words stand for.
fn read_words(alloc: Global, line: &[u8]) -> Result<Call, ReadError>
    ensures { Reads asked (call_in line.now) result }
{
    let words = split(alloc, line, b' ')?;
    let [name, words @ ..] = words.as_slice() else {
        return Err(ReadError::Malformed);
    };
    match str::from_utf8(name) {
        Ok(name) => read_form(alloc, name, words),
        Err(_) => Err(ReadError::Malformed),
    }
}

/// What a line says. The line comes without its line feed, and may be any bytes: it need not be UTF-8. A call that is read has the
/// word with which its line begins.
pub fn read_call(alloc: Global, line: &[u8]) -> Result<Reading, AllocError>
    ensures meaning { IfOk result (λ x. meaning_of x ≡ read_line line.now) }
    ensures named { IfOk result (λ x. Named line.now (meaning_of x)) }
{
    if let [] | [b'#', ..] = line {
        return Ok(Reading::Silent);
    }
    match read_words(alloc, line) {
        Ok(call) => Ok(Reading::Call(call)),
        Err(ReadError::Malformed) => Ok(Reading::Malformed),
        Err(ReadError::OutOfMemory(short)) => Err(short),
    }
}
