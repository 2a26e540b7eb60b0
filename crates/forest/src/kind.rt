ghost use Rattle.std.specs.Prelude.{◌≡◌};
ghost use Rattle.forest.specs.Stores.{kind_number};

/// What a tree is.
#[derive(Clone, Copy, PartialEq, Eq, Debug)]
pub enum Kind {
    Integer = 3,
    String = 4,
    Boolean = 5,
    Element = 6,
}

/// The kind's number.
impl From<Kind> for u8 {
    ghost from_gives = { λ kind number. number ≡ kind_number kind };

    fn from(kind: Kind) -> u8 {
        kind as u8
    }
}
