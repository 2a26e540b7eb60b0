ghost use Rattle.std.specs.Prelude.{◌≡◌, vec_items};
ghost use Rattle.fields.specs.Bytes.{hex_digit, hex_byte, hex_pairs, bytes_of};
ghost use Rattle.fields.specs.Reading.{Reads};

use crate::read_error::ReadError;
use std::alloc::Global;

/// The value of a hexadecimal digit of either case.
// The kit's crate `hex` would read a whole word, but then no edit could turn the value of a digit, and the project keeps that edit.
// `char::to_digit` needs a conversion on either side, and is no shorter.
fn read_digit(byte: u8) -> Option<u8>
    ensures { result ≡ hex_digit byte }
{
    match byte {
        b'0'..=b'9' => Some(byte - b'0'),
        b'A'..=b'F' => Some(byte - b'A' + 10),
        b'a'..=b'f' => Some(byte - b'a' + 10),
        _ => None,
    }
}

/// The byte that two digits write.
fn read_byte(high: u8, low: u8) -> Option<u8>
    ensures { result ≡ hex_byte high low }
{
    Some(16 * read_digit(high)? + read_digit(low)?)
}

/// The bytes that pairs of digits write.
fn read_pairs(alloc: Global, digits: &[u8]) -> Result<Vec<u8>, ReadError>
    ensures { Reads vec_items (hex_pairs digits.now) result }
{
    let mut bytes = Vec::with_capacity(alloc, digits.len() / 2)?;
    for pair in digits.chunks(2) {
        let [high, low] = pair else {
            return Err(ReadError::Malformed);
        };
        bytes.push(read_byte(*high, *low).ok_or(ReadError::Malformed)?)?;
    }
    Ok(bytes)
}

/// The bytes that a word stands for.
pub fn read_bytes(alloc: Global, word: &[u8]) -> Result<Vec<u8>, ReadError>
    ensures { Reads vec_items (bytes_of word.now) result }
{
    match word {
        [] => Err(ReadError::Malformed),
        b"-" => Ok(Vec::new(alloc)),
        _ => read_pairs(alloc, word),
    }
}
