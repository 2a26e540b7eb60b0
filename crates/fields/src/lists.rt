ghost use Rattle.std.specs.Prelude.{vec_items};
ghost use Rattle.fields.specs.Lists.{each, or_none, pieces, texts};
ghost use Rattle.fields.specs.Reading.{Reads};
ghost use Rattle.fields.specs.Rows.{numbers_of, rows_of};

use crate::field::Field;
use crate::pieces::split;
use crate::read_error::ReadError;
use std::alloc::Global;
use table::RawRow;

/// The values that words stand for.
pub fn read_all<T: Field + Drop>(alloc: Global, words: &[&[u8]]) -> Result<Vec<T>, ReadError>
    ensures { Reads vec_items (each T.meaning (texts words.now)) result }
{
    let mut values = Vec::with_capacity(alloc, words.len())?;
    for word in words {
        values.push(T::read(word).ok_or(ReadError::Malformed)?)?;
    }
    Ok(values)
}

/// The values of a list that a separator parts.
fn read_list<T: Field + Drop>(
    alloc: Global,
    word: &[u8],
    separator: u8,
) -> Result<Vec<T>, ReadError>
    ensures { Reads vec_items (or_none (λ list. each T.meaning (pieces separator list)) word.now) result }
{
    match word {
        b"-" => Ok(Vec::new(alloc)),
        _ => read_all(alloc, &split(alloc, word, separator)?),
    }
}

/// The numbers of a list that `,` parts.
pub fn read_number_list(alloc: Global, word: &[u8]) -> Result<Vec<u32>, ReadError>
    ensures { Reads vec_items (numbers_of word.now) result }
{
    read_list(alloc, word, b',')
}

/// The rows of a list that `;` parts.
pub fn read_row_list(alloc: Global, word: &[u8]) -> Result<Vec<RawRow>, ReadError>
    ensures { Reads vec_items (rows_of word.now) result }
{
    read_list(alloc, word, b';')
}
