ghost use Rattle.std.specs.Prelude.{◌≡◌, [], ◌∷◌};
ghost use Rattle.fields.specs.Numbers.{digits_after, at_most, number, signed_number};

use crate::field::Field;

/// The number with one digit more, if the byte is a digit and 64 bits hold the number.
fn with_digit(value: u64, byte: u8) -> Option<u64>
    ensures { result ≡ at_most 18446744073709551615 (digits_after value (byte ∷ [])) }
{
    if !byte.is_ascii_digit() {
        return None;
    }
    value.checked_mul(10)?.checked_add(u64::from(byte - b'0'))
}

/// The number that a word of decimal digits writes, if 64 bits hold it.
// The library's `parse` takes a `+` before the digits too, which no script may have.
fn read_number(word: &[u8]) -> Option<u64>
    ensures { result ≡ number 18446744073709551615 word.now }
{
    if word.is_empty() {
        return None;
    }
    let mut value = 0;
    for byte in word {
        value = with_digit(value, *byte)?;
    }
    Some(value)
}

impl Field for u8 {
    ghost meaning = { number 255 };

    fn read(word: &[u8]) -> Option<u8> {
        u8::try_from(read_number(word)?).ok()
    }
}

impl Field for u32 {
    ghost meaning = { number 4294967295 };

    fn read(word: &[u8]) -> Option<u32> {
        u32::try_from(read_number(word)?).ok()
    }
}

impl Field for i64 {
    ghost meaning = { signed_number };

    fn read(word: &[u8]) -> Option<i64> {
        match word {
            [b'-', digits @ ..] => 0i64.checked_sub_unsigned(read_number(digits)?),
            _ => i64::try_from(read_number(word)?).ok(),
        }
    }
}
