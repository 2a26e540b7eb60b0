ghost use Rattle.std.specs.Prelude.{◌≡◌, ◌<◌, ◌≤◌, [], ◌∷◌, decimal, vec_len};
ghost use Rattle.std.specs.Fmt.{signed_decimal};
ghost use Rattle.printing.specs.Items.{separator};
ghost use Rattle.printing.specs.Printed.{escaped, hex_digit, plain, truth};

use crate::stop::Stop;
use itoa::Buffer;
use std::alloc::Global;

/// Text that is being written, of so many bytes at most.
#[derive(Drop)]
pub(crate) struct Text {
    bytes: Vec<u8>,
    limit: usize,
    ghost fits: { vec_len bytes ≤ limit },
}

impl Text {
    ghost use Rattle.printing.specs.Writing.{Adds};

    /// An empty text.
    pub(crate) fn new(alloc: Global, limit: usize) -> Text
        ensures empty { result.bytes.items ≡ [] }
        ensures limit { result.limit ≡ limit }
    {
        Text {
            bytes: Vec::new(alloc),
            limit,
        }
    }

    /// What was written so far.
    pub(crate) fn as_bytes(&self) -> &[u8]
        ensures { result.now ≡ self.now.bytes.items }
    {
        self.bytes.as_slice()
    }

    /// Writes one byte.
    pub(crate) fn push(&mut self, byte: u8) -> Result<(), Stop>
        ensures { Adds result self.old self.new (byte ∷ []) }
    {
        if self.bytes.len() == self.limit {
            return Err(Stop::TooLong);
        }
        self.bytes.push(byte)?;
        Ok(())
    }

    /// Writes bytes.
    fn push_all(&mut self, more: &[u8]) -> Result<(), Stop>
        ensures { Adds result self.old self.new more.now }
    {
        if more.len() > self.limit - self.bytes.len() {
            return Err(Stop::TooLong);
        }
        self.bytes.extend_from_slice(more)?;
        Ok(())
    }

    /// Writes a number in decimal. Most have one digit, which needs no buffer.
    pub(crate) fn push_natural(&mut self, number: u64) -> Result<(), Stop>
        ensures { Adds result self.old self.new (decimal number) }
    {
        if number < 10 {
            return self.push(b'0' + number as u8);
        }
        self.push_all(Buffer::new().format(number).as_bytes())
    }

    /// Writes a number in decimal, with a minus sign if it is negative.
    pub(crate) fn push_number(&mut self, value: i64) -> Result<(), Stop>
        ensures { Adds result self.old self.new (signed_decimal value) }
    {
        if value < 0 {
            self.push(b'-')?;
        }
        self.push_natural(value.unsigned_abs())
    }

    /// Writes `true` or `false`.
    pub(crate) fn push_boolean(&mut self, value: bool) -> Result<(), Stop>
        ensures { Adds result self.old self.new (truth value) }
    {
        self.push_all(if value { b"true" } else { b"false" })
    }

    /// Writes a byte of a String: as it is, or as a backslash and two hexadecimal digits.
    pub(crate) fn push_escaped(&mut self, byte: u8) -> Result<(), Stop>
        ensures { Adds result self.old self.new (escaped byte) }
    {
        if is_plain(byte) {
            return self.push(byte);
        }
        self.push_all(&[b'\\', hex_digit(byte / 16), hex_digit(byte % 16)])
    }

    /// Writes what stands before the item at a place: a comma, unless it is the first.
    pub(crate) fn push_separator(&mut self, place: usize) -> Result<(), Stop>
        ensures { Adds result self.old self.new (separator place) }
    {
        if place > 0 {
            self.push(b',')?;
        }
        Ok(())
    }
}

/// Whether a byte of a String is written as it is.
fn is_plain(byte: u8) -> bool
    ensures { result ≡ plain byte }
{
    matches!(byte, b' '..=b'~') && !matches!(byte, b'"' | b'\\')
}

/// The lower-case hexadecimal digit of a number below 16.
fn hex_digit(digit: u8) -> u8
    requires { digit < 16 }
    ensures { result ≡ hex_digit digit }
{
    char::from_digit(u32::from(digit), 16).unwrap() as u8
}
