ghost use Rattle.std.specs.Prelude.{◌≡◌, codes, vec_items};
ghost use Rattle.std.specs.Option.{option_map};
ghost use Rattle.fields.specs.Bytes.{bytes_of};
ghost use Rattle.fields.specs.Lists.{texts};
ghost use Rattle.fields.specs.Reading.{Reads};
ghost use Rattle.fields.specs.Words.{only, given};
ghost use Rattle.script.specs.Calls.{asked, asked_store};
ghost use Rattle.script.specs.Forms.{call_of, store_call_of};

use crate::call::{Call, StoreCall};
use crate::session_forms::read_session_form;
use fields::{Field, ReadError, read_all, read_bytes, read_number_list, read_row_list};
use forest::Space;
use std::alloc::Global;

// Each form of no word, or of more than one, has a reader of its own, which names the words that the form takes, as docs/script.md
// does. A reader that such forms share would be given what to make of the words, and name none.

/// The value of the one word there is.
pub(crate) fn read_one<T: Field>(words: &[&[u8]]) -> Option<T>
    ensures { result ≡ given (only (texts words.now)) T.meaning }
{
    let [word] = words else {
        return None;
    };
    T::read(word)
}

/// The bytes of the one word there is.
pub(crate) fn read_one_bytes(alloc: Global, words: &[&[u8]]) -> Result<Vec<u8>, ReadError>
    ensures { Reads vec_items (given (only (texts words.now)) bytes_of) result }
{
    let [word] = words else {
        return Err(ReadError::Malformed);
    };
    read_bytes(alloc, word)
}

/// `table ROWS CHILDREN BYTES`
fn read_table(alloc: Global, words: &[&[u8]]) -> Result<StoreCall, ReadError>
    ensures { Reads asked_store (store_call_of (codes "table") (texts words.now)) result }
{
    let [rows, children, text] = words else {
        return Err(ReadError::Malformed);
    };
    Ok(StoreCall::Table {
        rows: read_row_list(alloc, rows)?,
        children: read_number_list(alloc, children)?,
        text: read_bytes(alloc, text)?,
    })
}

/// `tray TREES CHILDREN BYTES`
fn read_tray(words: &[&[u8]]) -> Option<StoreCall>
    ensures { option_map asked_store result ≡ store_call_of (codes "tray") (texts words.now) }
{
    let [trees, children, bytes] = words else {
        return None;
    };
    Some(StoreCall::Tray(Space {
        trees: u32::read(trees)?,
        children: u32::read(children)?,
        bytes: u32::read(bytes)?,
    }))
}

/// `space`
fn read_space(words: &[&[u8]]) -> Option<StoreCall>
    ensures { option_map asked_store result ≡ store_call_of (codes "space") (texts words.now) }
{
    words.is_empty().then_some(StoreCall::Space)
}

/// `element TAG HANDLE...`
fn read_element(alloc: Global, words: &[&[u8]]) -> Result<StoreCall, ReadError>
    ensures { Reads asked_store (store_call_of (codes "element") (texts words.now)) result }
{
    let [tag, children @ ..] = words else {
        return Err(ReadError::Malformed);
    };
    Ok(StoreCall::Element {
        tag: u32::read(tag).ok_or(ReadError::Malformed)?,
        children: read_all(alloc, children)?,
    })
}

/// `print PLACES HANDLE...`
fn read_print(alloc: Global, words: &[&[u8]]) -> Result<StoreCall, ReadError>
    ensures { Reads asked_store (store_call_of (codes "print") (texts words.now)) result }
{
    let [places, handles @ ..] = words else {
        return Err(ReadError::Malformed);
    };
    Ok(StoreCall::Print {
        places: u32::read(places).ok_or(ReadError::Malformed)?,
        handles: read_all(alloc, handles)?,
    })
}

/// The call that a word and the words after it stand for.
pub(crate) fn read_form(alloc: Global, name: &str, words: &[&[u8]]) -> Result<Call, ReadError>
    ensures { Reads asked (call_of name.now (texts words.now)) result }
{
    let call = match name {
        "capture" => read_one_bytes(alloc, words).map(StoreCall::Capture),
        "table" => read_table(alloc, words),
        "tray" => read_tray(words).ok_or(ReadError::Malformed),
        "space" => read_space(words).ok_or(ReadError::Malformed),
        "integer" => read_one(words)
            .map(StoreCall::Integer)
            .ok_or(ReadError::Malformed),
        "boolean" => read_one(words)
            .map(StoreCall::Boolean)
            .ok_or(ReadError::Malformed),
        "string" => read_one_bytes(alloc, words).map(StoreCall::String),
        "element" => read_element(alloc, words),
        "print" => read_print(alloc, words),
        _ => return read_session_form(alloc, name, words),
    };
    Ok(Call::Store(call?))
}
