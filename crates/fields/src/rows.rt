ghost use Rattle.std.specs.Prelude.{◌≡◌, ◌<◌, length, MatchOption};
ghost use Rattle.fields.specs.Lists.{pieces, texts};
ghost use Rattle.fields.specs.Rows.{row_of};

use crate::field::Field;
use arrayvec::ArrayVec;
use table::RawRow;

/// The pieces that `,` parts, if there are no more than five.
fn few_pieces(word: &[u8]) -> Option<ArrayVec<&[u8], 5>>
    ensures { MatchOption result (5 < length (pieces 44 word.now)) (λ few. texts few.items ≡ pieces 44 word.now) }
{
    let mut few = ArrayVec::new();
    for piece in word.split(|byte| *byte == b',') {
        few.try_push(piece).ok()?;
    }
    Some(few)
}

impl Field for RawRow {
    ghost meaning = { row_of };

    fn read(word: &[u8]) -> Option<RawRow> {
        let fields = few_pieces(word)?;
        let [kind, tag, from, length, value] = fields.as_slice() else {
            return None;
        };
        Some(RawRow {
            kind: u8::read(kind)?,
            tag: u32::read(tag)?,
            from: u32::read(from)?,
            length: u32::read(length)?,
            value: i64::read(value)?,
        })
    }
}
