ghost use Rattle.std.specs.Prelude.{◌≡◌};
ghost use Rattle.std.specs.Option.{ok_or};
ghost use Rattle.forest.specs.declared.fault.Reason.TheVariants.{FieldOutOfRange};
ghost use Rattle.rows.specs.Arms.{arm_of, arm_fits, arm_tag};

use forest::{Reason, tag_in_range};

/// Which items an arm takes.
#[derive(Clone, Copy, PartialEq, Eq, Debug, Default)]
pub enum Pattern {
    #[default]
    Integer,
    String,
    Boolean,
    Element { tag: u32 },
    AnyElement,
}

/// An arm of a match: the items that it takes, and the expression row that it runs.
#[derive(Clone, Copy, PartialEq, Eq, Debug, Default)]
pub struct Arm {
    pub pattern: Pattern,
    pub body: u32,
}

/// The numbers of an arm as they are given. The kind is no enum, since one that is not known has to be refused.
#[derive(Clone, Copy, PartialEq, Eq, Debug)]
pub struct RawArm {
    pub kind: u8,
    pub tag: u32,
    pub body: u32,
}

/// The arm that the numbers stand for: its kind is known, and the tag is 0 where the kind has none.
impl TryFrom<RawArm> for Arm {
    type Error = Reason;

    ghost try_from_gives = { λ raw arm. arm ≡ ok_or (arm_of raw.kind raw.tag raw.body) FieldOutOfRange };

    fn try_from(raw: RawArm) -> Result<Arm, Reason> {
        let pattern = match (raw.kind, raw.tag) {
            (3, 0) => Pattern::Integer,
            (4, 0) => Pattern::String,
            (5, 0) => Pattern::Boolean,
            (6, tag) => Pattern::Element { tag },
            (7, 0) => Pattern::AnyElement,
            _ => return Err(Reason::FieldOutOfRange),
        };
        Ok(Arm {
            pattern,
            body: raw.body,
        })
    }
}

impl Arm {
    /// The tag of the elements that the arm takes, where it takes those of one tag.
    pub fn tag(self) -> Option<u32>
        ensures { result ≡ arm_tag self }
    {
        match self.pattern {
            Pattern::Element { tag } => Some(tag),
            _ => None,
        }
    }

    /// Whether the tag is in range and the body among `expressions` rows.
    pub fn fits(self, expressions: u32) -> bool
        ensures { result ≡ arm_fits expressions self }
    {
        // A closure: a function of another crate, given by its name alone, does not bring its contract into this proof.
        self.tag().is_none_or(|tag| tag_in_range(tag)) && self.body < expressions
    }
}
