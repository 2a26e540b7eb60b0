ghost use Rattle.std.specs.Prelude.{◌≡◌};
ghost use Rattle.forest.specs.Faults.{number_of, faulted};

/// Why a call is refused.
#[derive(Clone, Copy, PartialEq, Eq, Debug)]
pub enum Reason {
    /// A table has no room for what is added.
    TableFull = 11,
    /// A field out of its range, or one that names what is not there.
    FieldOutOfRange = 12,
    /// A type part that another row owns, or that is named twice.
    PartTaken = 13,
    /// No query, or a function that has no body.
    NotSet = 21,
    /// A named type that is not there or is no root.
    TypeMissing = 22,
    /// A root that is not one-way.
    Ambiguous = 23,
    /// A variable that nothing binds.
    Unbound = 24,
    /// A function that is not there.
    NoSuchFunction = 25,
    /// A type of another kind than is asked for.
    WrongKind = 26,
    /// A type that does not fit the one that is asked for.
    Unfit = 27,
    /// Typing needs one more type row than a session has.
    TypesFull = 28,
    /// A handle that the store does not have.
    NoSuchHandle = 33,
    /// More than 64 elements stand inside one another.
    NestedTooDeep = 34,
    /// Input outside its type.
    OutsideType = 35,
    /// The text is longer than the buffer.
    BufferShort = 36,
    /// The store's space does not hold one more such tree.
    SpaceShort = 51,
    /// A kind, tag, value or child handle out of its range.
    OutOfRange = 52,
    /// A table past a limit, or with an unlawful row.
    UnlawfulTable = 53,
    /// A capture with an unlawful event.
    UnlawfulCapture = 54,
}

/// The number that stands for the reason in every answer.
impl From<Reason> for u8 {
    ghost from_gives = { λ reason number. number ≡ number_of reason };

    fn from(reason: Reason) -> u8 {
        reason as u8
    }
}

/// A refusal: why, the layer that refused, and the row that is to blame (0 where no row is).
#[derive(Clone, Copy, PartialEq, Eq, Debug)]
pub struct Fault {
    pub reason: Reason,
    /// A number and no enum, since stores of other kinds may name layers of their own.
    pub layer: u8,
    /// Answers print it as it is, so where there is no row it is 0 and no `None`.
    pub row: u32,
}

impl Fault {
    pub fn new(reason: Reason, layer: u8, row: u32) -> Fault
        ensures { result ≡ faulted reason layer row }
    {
        Fault { reason, layer, row }
    }
}
