ghost use Rattle.std.specs.Prelude.{◌≡◌, ℕ, ◌≤◌, true, length};
ghost use Rattle.arena.specs.Rows.{part, within, row_kind, row_tag, row_value, row_children, row_text};

use forest::Kind;

/// A tree in an arena: a String names a part of the arena's text, an element a part of its child entries.
#[derive(Clone, Copy, PartialEq, Eq, Debug)]
pub enum Row {
    Boolean(bool),
    Integer(i64),
    String(Span),
    Element(u16, Span),
}

/// So many entries or bytes from a place on.
#[derive(Clone, Copy, PartialEq, Eq, Debug)]
pub struct Span {
    pub from: u32,
    pub length: u32,
}

impl Row {
    /// What the row's tree is.
    pub(crate) fn kind(self) -> Kind
        ensures { result ≡ row_kind self }
    {
        match self {
            Row::Boolean(_) => Kind::Boolean,
            Row::Integer(_) => Kind::Integer,
            Row::String(_) => Kind::String,
            Row::Element(_, _) => Kind::Element,
        }
    }

    /// An element's tag; else 0.
    pub(crate) fn tag(self) -> u16
        ensures { result ≡ row_tag self }
    {
        match self {
            Row::Element(tag, _) => tag,
            _ => 0,
        }
    }

    /// An Integer's value; of a Boolean 0 or 1; else 0.
    pub(crate) fn value(self) -> i64
        ensures { result ≡ row_value self }
    {
        match self {
            Row::Integer(value) => value,
            Row::Boolean(true) => 1,
            _ => 0,
        }
    }

    /// The part of the child entries that an element names.
    pub(crate) fn children(self) -> Option<Span>
        ensures { result ≡ row_children self }
    {
        match self {
            Row::Element(_, children) => Some(children),
            _ => None,
        }
    }

    /// The part of the text that a String names.
    pub(crate) fn text(self) -> Option<Span>
        ensures { result ≡ row_text self }
    {
        match self {
            Row::String(text) => Some(text),
            _ => None,
        }
    }
}

impl Span {
    /// Whether the span lies within so many things.
    pub(crate) fn is_within(self, length: usize) -> bool
        ensures { result ≡ within self length }
    {
        self.from as usize + self.length as usize <= length
    }

    /// The things that the span names.
    pub(crate) fn part<T>(self, items: &[T]) -> &[T]
        requires { within self (length items.now) ≡ true }
        ensures { result.now ≡ part self items.now }
    {
        let from = self.from as usize;
        &items[from..from + self.length as usize]
    }
}
