ghost use Rattle.std.specs.Prelude.{◌≡◌};
ghost use Rattle.script.specs.Calls.{asked, asked_store, asked_session, asked_types, word_of, store_word, session_word, types_word};

use forest::Space;
use rows::{Query, RawArm, RawExpression, RawType};
use table::RawRow;

/// A call on a store, or one that puts another store in its place.
#[derive(PartialEq, Eq, Drop)]
pub enum StoreCall {
    Capture(Vec<u8>),
    Table {
        rows: Vec<RawRow>,
        children: Vec<u32>,
        text: Vec<u8>,
    },
    Tray(Space),
    Space,
    Integer(i64),
    Boolean(u32),
    String(Vec<u8>),
    Element {
        tag: u32,
        children: Vec<u32>,
    },
    Print {
        places: u32,
        handles: Vec<u32>,
    },
}

impl StoreCall {
    /// The word that names the call.
    fn word(&self) -> &'static str
        ensures { result.now ≡ store_word (asked_store self.now) }
    {
        match self {
            StoreCall::Capture(_) => "capture",
            StoreCall::Table { .. } => "table",
            StoreCall::Tray(_) => "tray",
            StoreCall::Space => "space",
            StoreCall::Integer(_) => "integer",
            StoreCall::Boolean(_) => "boolean",
            StoreCall::String(_) => "string",
            StoreCall::Element { .. } => "element",
            StoreCall::Print { .. } => "print",
        }
    }
}

/// A call on a session.
// A history's `Call` is another type: it lends its text, and has no `Tags`, since a history holds only what can change a session.
#[derive(PartialEq, Eq, Drop)]
pub enum SessionCall {
    Text(Vec<u8>),
    Type(RawType),
    Function { parameter: u32, result: u32 },
    Arm(RawArm),
    Expression(RawExpression),
    Body { function: u32, row: u32 },
    Query(Query),
    Check,
    Tags { places: u32 },
    Clear,
}

impl SessionCall {
    /// The word that names the call.
    fn word(&self) -> &'static str
        ensures { result.now ≡ session_word (asked_session self.now) }
    {
        match self {
            SessionCall::Text(_) => "text",
            SessionCall::Type(_) => "type",
            SessionCall::Function { .. } => "function",
            SessionCall::Arm(_) => "arm",
            SessionCall::Expression(_) => "expression",
            SessionCall::Body { .. } => "body",
            SessionCall::Query(_) => "query",
            SessionCall::Check => "check",
            SessionCall::Tags { .. } => "tags",
            SessionCall::Clear => "clear",
        }
    }
}

/// A call on the types of a session.
#[derive(PartialEq, Eq, Drop)]
pub enum TypeCall {
    OneWay { row: u32 },
    Fits { row: u32, root: u32 },
    Validate { root: u32, handles: Vec<u32> },
}

impl TypeCall {
    /// The word that names the call.
    fn word(&self) -> &'static str
        ensures { result.now ≡ types_word (asked_types self.now) }
    {
        match self {
            TypeCall::OneWay { .. } => "oneway",
            TypeCall::Fits { .. } => "fits",
            TypeCall::Validate { .. } => "validate",
        }
    }
}

/// A call of a script.
#[derive(PartialEq, Eq, Drop)]
pub enum Call {
    Store(StoreCall),
    Session(SessionCall),
    Types(TypeCall),
}

impl Call {
    /// The word that names the call.
    pub fn word(&self) -> &'static str
        ensures { result.now ≡ word_of (asked self.now) }
    {
        match self {
            Call::Store(call) => call.word(),
            Call::Session(call) => call.word(),
            Call::Types(call) => call.word(),
        }
    }
}
