ghost use Rattle.std.specs.Prelude.{◌≡◌};
ghost use Rattle.std.specs.Option.{ok_or};
ghost use Rattle.forest.specs.declared.fault.Reason.TheVariants.{FieldOutOfRange};
ghost use Rattle.rows.specs.Expressions.{expression_of, plain_of, small, expression_fits, element_tag, within, arms_within};

use crate::function::FUNCTIONS;
use crate::type_row::TYPE_ROWS;
use forest::{Reason, integer_in_range, tag_in_range};

/// So many expression rows, and so many variables.
pub const EXPRESSIONS: u32 = 512;

/// A row of the expression table. Its parts are lower rows, and may be parts of other rows too.
#[derive(Clone, Copy, PartialEq, Eq, Debug, Default)]
pub enum Expression {
    #[default]
    Error,
    Integer {
        value: i64,
    },
    Boolean {
        value: bool,
    },
    String {
        from: u32,
        length: u32,
    },
    Variable {
        number: u32,
    },
    Element {
        tag: u32,
        content: u32,
    },
    Sequence {
        first: u32,
        second: u32,
    },
    Empty,
    If {
        condition: u32,
        then: u32,
        otherwise: u32,
    },
    Let {
        value: u32,
        body: u32,
    },
    For {
        items: u32,
        body: u32,
    },
    Match {
        subject: u32,
        from: u32,
        length: u32,
        otherwise: u32,
    },
    Call {
        function: u32,
        argument: u32,
    },
    Add {
        left: u32,
        right: u32,
    },
    Equal {
        left: u32,
        right: u32,
    },
    IsEmpty {
        part: u32,
    },
    Count {
        part: u32,
    },
    Children {
        part: u32,
    },
    As {
        part: u32,
        target: u32,
    },
}

/// How many expressions, arms and bytes of text are there for a row to name.
#[derive(Clone, Copy, PartialEq, Eq, Debug)]
pub struct Room {
    pub expressions: u32,
    pub arms: u32,
    pub bytes: u32,
}

/// The numbers of an expression row as they are given. The kind is no enum, since one that is not known has to be refused.
#[derive(Clone, Copy, PartialEq, Eq, Debug)]
pub struct RawExpression {
    pub kind: u8,
    pub a: i64,
    pub b: u32,
    pub c: u32,
    pub d: u32,
}

/// The row that the numbers stand for: its kind is known, and a field that the kind does not use is 0.
impl TryFrom<RawExpression> for Expression {
    type Error = Reason;

    ghost try_from_gives = { λ raw row. row ≡ ok_or (expression_of raw.kind raw.a raw.b raw.c raw.d) FieldOutOfRange };

    fn try_from(raw: RawExpression) -> Result<Expression, Reason> {
        let RawExpression { kind, a, b, c, d } = raw;
        match (kind, b, c, d) {
            (1, 0, 0, 0) => Ok(Expression::Integer { value: a }),
            _ => plain(kind, small(a)?, b, c, d),
        }
    }
}

impl Expression {
    /// The tag of the element that the row makes.
    pub fn tag(self) -> Option<u32>
        ensures { result ≡ element_tag self }
    {
        match self {
            Expression::Element { tag, .. } => Some(tag),
            _ => None,
        }
    }

    /// Whether the row's fields are in range, and what it names is there.
    pub fn fits(self, room: Room) -> bool
        ensures { result ≡ expression_fits room self }
    {
        let rows = room.expressions;
        match self {
            Expression::Error | Expression::Empty | Expression::Boolean { .. } => true,
            Expression::Integer { value } => integer_in_range(value),
            Expression::String { from, length } => within(from, length, room.bytes),
            Expression::Variable { number } => number < EXPRESSIONS,
            Expression::Element { tag, content } => tag_in_range(tag) && content < rows,
            Expression::Sequence { first, second }
            | Expression::Let {
                value: first,
                body: second,
            }
            | Expression::For {
                items: first,
                body: second,
            }
            | Expression::Add {
                left: first,
                right: second,
            }
            | Expression::Equal {
                left: first,
                right: second,
            } => first < rows && second < rows,
            Expression::If {
                condition,
                then,
                otherwise,
            } => condition < rows && then < rows && otherwise < rows,
            Expression::Match {
                subject,
                from,
                length,
                otherwise,
            } => subject < rows && otherwise < rows && arms_within(from, length, room.arms),
            Expression::Call { function, argument } => function < FUNCTIONS && argument < rows,
            Expression::IsEmpty { part }
            | Expression::Count { part }
            | Expression::Children { part } => part < rows,
            Expression::As { part, target } => part < rows && target < TYPE_ROWS,
        }
    }
}

/// What the first field is in a row of any kind but 1.
fn small(a: i64) -> Result<u32, Reason>
    ensures { result ≡ ok_or (small a) FieldOutOfRange }
{
    u16::try_from(a)
        .map(u32::from)
        .map_err(|_| Reason::FieldOutOfRange)
}

/// A row of any kind but 1.
fn plain(kind: u8, a: u32, b: u32, c: u32, d: u32) -> Result<Expression, Reason>
    ensures { result ≡ ok_or (plain_of kind a b c d) FieldOutOfRange }
{
    match (kind, a, b, c, d) {
        (2, 0 | 1, 0, 0, 0) => Ok(Expression::Boolean { value: a == 1 }),
        (3, from, length, 0, 0) => Ok(Expression::String { from, length }),
        (4, number, 0, 0, 0) => Ok(Expression::Variable { number }),
        (5, tag, content, 0, 0) => Ok(Expression::Element { tag, content }),
        (6, first, second, 0, 0) => Ok(Expression::Sequence { first, second }),
        (7, 0, 0, 0, 0) => Ok(Expression::Empty),
        (8, condition, then, otherwise, 0) => Ok(Expression::If {
            condition,
            then,
            otherwise,
        }),
        (9, value, body, 0, 0) => Ok(Expression::Let { value, body }),
        (10, items, body, 0, 0) => Ok(Expression::For { items, body }),
        (11, subject, from, otherwise, length) => Ok(Expression::Match {
            subject,
            from,
            length,
            otherwise,
        }),
        (12, function, argument, 0, 0) => Ok(Expression::Call { function, argument }),
        (13, 0, 0, 0, 0) => Ok(Expression::Error),
        (14, left, right, 0, 0) => Ok(Expression::Add { left, right }),
        (15, left, right, 0, 0) => Ok(Expression::Equal { left, right }),
        (16, part, 0, 0, 0) => Ok(Expression::IsEmpty { part }),
        (17, part, 0, 0, 0) => Ok(Expression::Count { part }),
        (18, part, 0, 0, 0) => Ok(Expression::Children { part }),
        (19, part, target, 0, 0) => Ok(Expression::As { part, target }),
        _ => Err(Reason::FieldOutOfRange),
    }
}

/// Whether `length` things from a place on are there, of `count`.
fn within(from: u32, length: u32, count: u32) -> bool
    ensures { result ≡ within from length count }
{
    from.checked_add(length).is_some_and(|end| end <= count)
}

/// Whether a match names arms that are there; one with no arms names arm 0.
fn arms_within(from: u32, length: u32, arms: u32) -> bool
    ensures { result ≡ arms_within from length arms }
{
    if length == 0 {
        from == 0
    } else {
        within(from, length, arms)
    }
}
