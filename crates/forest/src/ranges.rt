ghost use Rattle.std.specs.Prelude.{◌≡◌, cond, nat_le};
ghost use Rattle.forest.specs.Faults.{faulted};
ghost use Rattle.forest.specs.declared.fault.Reason.TheVariants.{SpaceShort, OutOfRange};
ghost use Rattle.forest.specs.Forests.{integer_lawful, tag_lawful};
ghost use Rattle.forest.specs.Stores.{all_below};

use crate::fault::{Fault, Reason};

/// Whether an Integer may have this value.
pub fn integer_in_range(value: i64) -> bool
    ensures { result ≡ integer_lawful value }
{
    (-1_000_000_000_000..=1_000_000_000_000).contains(&value)
}

/// Whether a number stands for a Boolean.
pub fn boolean_in_range(value: u32) -> bool
    ensures { result ≡ nat_le value 1 }
{
    value < 2
}

/// Whether an element may have this tag.
pub fn tag_in_range(tag: u32) -> bool
    ensures { result ≡ tag_lawful tag }
{
    (1..=65_535).contains(&tag)
}

/// Whether each handle is below `count`.
pub fn handles_in_range(handles: &[u32], count: u32) -> bool
    ensures { result ≡ all_below count handles.now }
{
    handles.iter().all(|handle| *handle < count)
}

/// How a store that has no space left refuses to make a tree: a field out of range goes first.
pub fn refuse_without_space(layer: u8, in_range: bool) -> Fault
    ensures { result ≡ cond in_range (faulted SpaceShort layer 0) (faulted OutOfRange layer 0) }
{
    let reason = if in_range {
        Reason::SpaceShort
    } else {
        Reason::OutOfRange
    };
    Fault::new(reason, layer, 0)
}
