ghost use Rattle.table.specs.Tables.{Converts};

use arena::{Row, Span};
use forest::Kind;

/// A row of a table as it is given. Its kind is no enum, since one that is not known has to be refused. `from` and `length` name an element's children or a String's text; a field that the kind does not
/// use is not read.
#[derive(Clone, Copy, PartialEq, Eq, Debug)]
pub struct RawRow {
    pub kind: u8,
    pub tag: u32,
    pub from: u32,
    pub length: u32,
    pub value: i64,
}

/// Says of a given row that it stands for none: by its kind, its Boolean or its tag.
#[derive(Clone, Copy, PartialEq, Eq, Debug)]
pub struct NoRow;

// The kinds by their numbers.

const INTEGER: u8 = Kind::Integer as u8;

const STRING: u8 = Kind::String as u8;

const BOOLEAN: u8 = Kind::Boolean as u8;

const ELEMENT: u8 = Kind::Element as u8;

impl TryFrom<RawRow> for Row {
    type Error = NoRow;

    ghost try_from_gives = { Converts };

    fn try_from(raw: RawRow) -> Result<Row, NoRow> {
        let span = Span {
            from: raw.from,
            length: raw.length,
        };
        match raw.kind {
            INTEGER => Ok(Row::Integer(raw.value)),
            STRING => Ok(Row::String(span)),
            BOOLEAN if raw.value == 0 => Ok(Row::Boolean(false)),
            BOOLEAN if raw.value == 1 => Ok(Row::Boolean(true)),
            ELEMENT if raw.tag <= 65_535 => Ok(Row::Element(raw.tag as u16, span)),
            _ => Err(NoRow),
        }
    }
}
