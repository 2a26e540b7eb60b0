ghost use Rattle.std.specs.Prelude.{◌≡◌, ◌==◌};
ghost use Rattle.std.specs.List.{list_any};
ghost use Rattle.rows.specs.Arms.{pattern_tag};
ghost use Rattle.typing.specs.Kinds.{is_item, is_integer, is_boolean, is_scalar, taken_by, may_take_tag, taking, narrowed};
ghost use Rattle.session.specs.Kinds.{taking_of};

use rows::{Arm, Pattern, TypeRow};
use types::{content, cover, overlap};

/// An arm takes every item of a subject, or passes over it. Against any element it may take those of its tag.
#[derive(Clone, Copy)]
pub(crate) enum Taking {
    Takes,
    Passes,
    MayTake(u32),
}

pub(crate) fn is_item(row: TypeRow) -> bool
    ensures { result ≡ is_item row }
{
    match row {
        TypeRow::EmptyChoice
        | TypeRow::EmptySequence
        | TypeRow::Sequence { .. }
        | TypeRow::Choice { .. }
        | TypeRow::Repetition { .. } => false,
        _ => true,
    }
}

pub(crate) fn is_integer(row: TypeRow) -> bool
    ensures { result ≡ is_integer row }
{
    overlap(row, TypeRow::Integer)
}

pub(crate) fn is_boolean(row: TypeRow) -> bool
    ensures { result ≡ is_boolean row }
{
    overlap(row, TypeRow::Boolean)
}

pub(crate) fn is_scalar(row: TypeRow) -> bool
    ensures { result ≡ is_scalar row }
{
    is_integer(row) || overlap(row, TypeRow::String) || is_boolean(row)
}

/// How an arm stands to a subject, where earlier arms have named these tags.
pub(crate) fn judge(named: &[u32], subject: TypeRow, arm: Arm) -> Taking
    ensures { taking_of result ≡ taking named.now subject arm.pattern }
{
    let taken = taken_by(arm.pattern);
    if cover(subject, taken) {
        Taking::Takes
    } else if overlap(subject, taken) {
        may_take(named, arm.tag())
    } else {
        Taking::Passes
    }
}

/// The elements of one tag among any elements.
pub(crate) fn narrowed(tag: u32, subject: TypeRow) -> TypeRow
    ensures { result ≡ narrowed tag subject }
{
    TypeRow::Element {
        tag,
        content: content(subject).unwrap_or(0),
    }
}

/// The items that an arm takes, contents aside.
fn taken_by(pattern: Pattern) -> TypeRow
    ensures { result ≡ taken_by pattern }
{
    match pattern {
        Pattern::Integer => TypeRow::Integer,
        Pattern::String => TypeRow::String,
        Pattern::Boolean => TypeRow::Boolean,
        Pattern::Element { tag } => TypeRow::Element { tag, content: 0 },
        Pattern::AnyElement => TypeRow::AnyElement { content: 0 },
    }
}

/// An arm may take elements of a tag that is not named yet.
fn may_take(named: &[u32], tag: Option<u32>) -> Taking
    ensures { taking_of result ≡ may_take_tag named.now tag }
{
    match tag {
        None => Taking::Passes,
        Some(tag) => {
            if is_named(named, tag) {
                Taking::Passes
            } else {
                Taking::MayTake(tag)
            }
        }
    }
}

fn is_named(named: &[u32], tag: u32) -> bool
    ensures { result ≡ list_any (λ u. u == tag) named.now }
{
    named.iter().any(|other| *other == tag)
}
