ghost use Rattle.std.specs.Prelude.{◌≡◌, codes};
ghost use Rattle.std.specs.Option.{option_map};
ghost use Rattle.fields.specs.Lists.{texts};
ghost use Rattle.fields.specs.Reading.{Reads};
ghost use Rattle.script.specs.Calls.{asked_types};
ghost use Rattle.script.specs.Forms.{types_call_of};

use crate::call::TypeCall;
use crate::forms::read_one;
use fields::{Field, ReadError, read_all};
use std::alloc::Global;

/// `fits ROW ROOT`
fn read_fits(words: &[&[u8]]) -> Option<TypeCall>
    ensures { option_map asked_types result ≡ types_call_of (codes "fits") (texts words.now) }
{
    let [row, root] = words else {
        return None;
    };
    Some(TypeCall::Fits {
        row: u32::read(row)?,
        root: u32::read(root)?,
    })
}

/// `validate ROOT HANDLE...`
fn read_validate(alloc: Global, words: &[&[u8]]) -> Result<TypeCall, ReadError>
    ensures { Reads asked_types (types_call_of (codes "validate") (texts words.now)) result }
{
    let [root, handles @ ..] = words else {
        return Err(ReadError::Malformed);
    };
    Ok(TypeCall::Validate {
        root: u32::read(root).ok_or(ReadError::Malformed)?,
        handles: read_all(alloc, handles)?,
    })
}

/// The call on types that a word and the words after it stand for.
pub(crate) fn read_type_form(
    alloc: Global,
    name: &str,
    words: &[&[u8]],
) -> Result<TypeCall, ReadError>
    ensures { Reads asked_types (types_call_of name.now (texts words.now)) result }
{
    match name {
        "oneway" => read_one(words)
            .map(|row| TypeCall::OneWay { row })
            .ok_or(ReadError::Malformed),
        "fits" => read_fits(words).ok_or(ReadError::Malformed),
        "validate" => read_validate(alloc, words),
        _ => Err(ReadError::Malformed),
    }
}
