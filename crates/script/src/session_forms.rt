ghost use Rattle.std.specs.Prelude.{◌≡◌, codes};
ghost use Rattle.std.specs.Option.{option_map};
ghost use Rattle.fields.specs.Lists.{texts};
ghost use Rattle.fields.specs.Reading.{Reads};
ghost use Rattle.script.specs.Calls.{asked, asked_session};
ghost use Rattle.script.specs.Forms.{session_call_of, other_call_of};

use crate::call::{Call, SessionCall};
use crate::forms::{read_one, read_one_bytes};
use crate::type_forms::read_type_form;
use fields::{Field, ReadError};
use rows::{Query, RawArm, RawExpression, RawType};
use std::alloc::Global;

// As with the calls on a store, each form of no word, or of more than one, has a reader of its own.

/// `type KIND A B`
fn read_type(words: &[&[u8]]) -> Option<SessionCall>
    ensures { option_map asked_session result ≡ session_call_of (codes "type") (texts words.now) }
{
    let [kind, a, b] = words else {
        return None;
    };
    Some(SessionCall::Type(RawType {
        kind: u8::read(kind)?,
        a: u32::read(a)?,
        b: u32::read(b)?,
    }))
}

/// `function PARAMETER RESULT`
fn read_function(words: &[&[u8]]) -> Option<SessionCall>
    ensures { option_map asked_session result ≡ session_call_of (codes "function") (texts words.now) }
{
    let [parameter, result] = words else {
        return None;
    };
    Some(SessionCall::Function {
        parameter: u32::read(parameter)?,
        result: u32::read(result)?,
    })
}

/// `arm KIND TAG BODY`
fn read_arm(words: &[&[u8]]) -> Option<SessionCall>
    ensures { option_map asked_session result ≡ session_call_of (codes "arm") (texts words.now) }
{
    let [kind, tag, body] = words else {
        return None;
    };
    Some(SessionCall::Arm(RawArm {
        kind: u8::read(kind)?,
        tag: u32::read(tag)?,
        body: u32::read(body)?,
    }))
}

/// `expression KIND A B C D`
fn read_expression(words: &[&[u8]]) -> Option<SessionCall>
    ensures { option_map asked_session result ≡ session_call_of (codes "expression") (texts words.now) }
{
    let [kind, a, b, c, d] = words else {
        return None;
    };
    Some(SessionCall::Expression(RawExpression {
        kind: u8::read(kind)?,
        a: i64::read(a)?,
        b: u32::read(b)?,
        c: u32::read(c)?,
        d: u32::read(d)?,
    }))
}

/// `body FUNCTION ROW`
fn read_body(words: &[&[u8]]) -> Option<SessionCall>
    ensures { option_map asked_session result ≡ session_call_of (codes "body") (texts words.now) }
{
    let [function, row] = words else {
        return None;
    };
    Some(SessionCall::Body {
        function: u32::read(function)?,
        row: u32::read(row)?,
    })
}

/// `query TYPE ROW`
fn read_query(words: &[&[u8]]) -> Option<SessionCall>
    ensures { option_map asked_session result ≡ session_call_of (codes "query") (texts words.now) }
{
    let [input, row] = words else {
        return None;
    };
    Some(SessionCall::Query(Query {
        input: u32::read(input)?,
        row: u32::read(row)?,
    }))
}

/// `check`
fn read_check(words: &[&[u8]]) -> Option<SessionCall>
    ensures { option_map asked_session result ≡ session_call_of (codes "check") (texts words.now) }
{
    words.is_empty().then_some(SessionCall::Check)
}

/// `clear`
fn read_clear(words: &[&[u8]]) -> Option<SessionCall>
    ensures { option_map asked_session result ≡ session_call_of (codes "clear") (texts words.now) }
{
    words.is_empty().then_some(SessionCall::Clear)
}

/// The call on a session, or on its types, that a word and the words after it stand for.
pub(crate) fn read_session_form(
    alloc: Global,
    name: &str,
    words: &[&[u8]],
) -> Result<Call, ReadError>
    ensures { Reads asked (other_call_of name.now (texts words.now)) result }
{
    let call = match name {
        "text" => read_one_bytes(alloc, words).map(SessionCall::Text),
        "type" => read_type(words).ok_or(ReadError::Malformed),
        "function" => read_function(words).ok_or(ReadError::Malformed),
        "arm" => read_arm(words).ok_or(ReadError::Malformed),
        "expression" => read_expression(words).ok_or(ReadError::Malformed),
        "body" => read_body(words).ok_or(ReadError::Malformed),
        "query" => read_query(words).ok_or(ReadError::Malformed),
        "check" => read_check(words).ok_or(ReadError::Malformed),
        "tags" => read_one(words)
            .map(|places| SessionCall::Tags { places })
            .ok_or(ReadError::Malformed),
        "clear" => read_clear(words).ok_or(ReadError::Malformed),
        _ => return Ok(Call::Types(read_type_form(alloc, name, words)?)),
    };
    Ok(Call::Session(call?))
}
