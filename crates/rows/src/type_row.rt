ghost use Rattle.std.specs.Prelude.{◌≡◌};
ghost use Rattle.std.specs.Option.{ok_or};
ghost use Rattle.forest.specs.declared.fault.Reason.TheVariants.{FieldOutOfRange};
ghost use Rattle.rows.specs.TypeRows.{type_of, type_fits, owns, shares, twice};

use forest::{Reason, tag_in_range};

/// So many type rows, and so many contents that a row may name.
pub const TYPE_ROWS: u32 = 512;

/// A row of the type table. A part is a lower row; a content is any row, also one that is not there yet.
#[derive(Clone, Copy, PartialEq, Eq, Debug)]
pub enum TypeRow {
    EmptyChoice,
    EmptySequence,
    Integer,
    String,
    Boolean,
    Element { tag: u32, content: u32 },
    AnyElement { content: u32 },
    Sequence { first: u32, second: u32 },
    Choice { first: u32, second: u32 },
    Repetition { part: u32 },
}

/// The numbers of a type row as they are given. The kind is no enum, since one that is not known has to be refused.
#[derive(Clone, Copy, PartialEq, Eq, Debug)]
pub struct RawType {
    pub kind: u8,
    pub a: u32,
    pub b: u32,
}

/// The row that the numbers stand for: its kind is known, and a field that the kind does not use is 0.
impl TryFrom<RawType> for TypeRow {
    type Error = Reason;

    ghost try_from_gives = { λ raw row. row ≡ ok_or (type_of raw.kind raw.a raw.b) FieldOutOfRange };

    fn try_from(raw: RawType) -> Result<TypeRow, Reason> {
        match (raw.kind, raw.a, raw.b) {
            (1, 0, 0) => Ok(TypeRow::EmptyChoice),
            (2, 0, 0) => Ok(TypeRow::EmptySequence),
            (3, 0, 0) => Ok(TypeRow::Integer),
            (4, 0, 0) => Ok(TypeRow::String),
            (5, 0, 0) => Ok(TypeRow::Boolean),
            (6, tag, content) => Ok(TypeRow::Element { tag, content }),
            (7, 0, content) => Ok(TypeRow::AnyElement { content }),
            (8, first, second) => Ok(TypeRow::Sequence { first, second }),
            (9, first, second) => Ok(TypeRow::Choice { first, second }),
            (10, part, 0) => Ok(TypeRow::Repetition { part }),
            _ => Err(Reason::FieldOutOfRange),
        }
    }
}

impl TypeRow {
    /// Whether the row's fields are in range where `count` rows are there already.
    pub fn fits(self, count: u32) -> bool
        ensures { result ≡ type_fits count self }
    {
        match self {
            TypeRow::Element { tag, content } => tag_in_range(tag) && content < TYPE_ROWS,
            TypeRow::AnyElement { content } => content < TYPE_ROWS,
            TypeRow::Sequence { first, second } | TypeRow::Choice { first, second } => {
                first < count && second < count
            }
            TypeRow::Repetition { part } => part < count,
            _ => true,
        }
    }

    /// Whether the row names this part.
    pub fn owns(self, row: u32) -> bool
        ensures { result ≡ owns self row }
    {
        match self {
            TypeRow::Sequence { first, second } | TypeRow::Choice { first, second } => {
                first == row || second == row
            }
            TypeRow::Repetition { part } => part == row,
            _ => false,
        }
    }

    /// Whether two rows name a common part.
    pub fn shares(self, other: TypeRow) -> bool
        ensures { result ≡ shares self other }
    {
        match self {
            TypeRow::Sequence { first, second } | TypeRow::Choice { first, second } => {
                other.owns(first) || other.owns(second)
            }
            TypeRow::Repetition { part } => other.owns(part),
            _ => false,
        }
    }

    /// Whether the row names a part twice.
    pub fn names_twice(self) -> bool
        ensures { result ≡ twice self }
    {
        match self {
            TypeRow::Sequence { first, second } | TypeRow::Choice { first, second } => {
                first == second
            }
            _ => false,
        }
    }
}
