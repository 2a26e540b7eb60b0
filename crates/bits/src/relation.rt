ghost use Rattle.std.specs.Prelude.{◌≡◌, ℕ, ◌+◌, ◌*◌, false, length};
ghost use Rattle.bits.specs.Bits.{bit, related, row_items, Inserted, Removed, United};
ghost use Rattle.bits.specs.Items.{items_left};

use crate::items::Items;
use crate::{places, rows};

/// A relation between rows: 512 bits for each row on its left, in 8 words.
#[derive(Clone, Copy)]
pub struct Relation<const WORDS: usize> {
    pub words: [u64; WORDS],
    ghost long: { length words ≡ WORDS },
}

impl<const WORDS: usize> Relation<WORDS> {
    /// The empty relation.
    pub fn new() -> Self
        ensures { (j : ℕ) → bit result.words j ≡ false }
    {
        Relation { words: [0; WORDS] }
    }

    /// Whether an item stands in a row; past the end none does.
    pub fn has(&self, row: u32, item: u32) -> bool
        ensures { result ≡ related self.now.words row item }
    {
        places::has(&self.words, place(row, item))
    }

    /// Puts an item into a row. Answers whether there is such a row and the item was not in it before.
    pub fn insert(&mut self, row: u32, item: u32) -> bool
        ensures { Inserted self.old.words self.new.words (row * 512 + item) result }
    {
        places::insert(&mut self.words, place(row, item))
    }

    /// Takes an item out of a row.
    pub fn remove(&mut self, row: u32, item: u32)
        ensures { Removed self.old.words self.new.words (row * 512 + item) }
    {
        places::remove(&mut self.words, place(row, item));
    }

    /// Adds the items of the row `from` to the row `to`, where both are there.
    pub fn unite(&mut self, to: u32, from: u32)
        ensures { United self.old.words self.new.words to from }
    {
        rows::unite(&mut self.words, to as usize, from as usize);
    }

    /// The items of a row.
    pub fn items(&self, row: u32) -> Items<'_>
        ensures { items_left result ≡ row_items self.now.words row 0 }
    {
        self.items_from(row, 0)
    }

    /// The items of a row, from one on.
    pub fn items_from(&self, row: u32, from: u32) -> Items<'_>
        ensures { items_left result ≡ row_items self.now.words row from }
    {
        Items {
            words: &self.words,
            row,
            from,
        }
    }
}

/// The place of an item in a row.
fn place(row: u32, item: u32) -> usize
    ensures { result ≡ row * 512 + item }
{
    row as usize * 512 + item as usize
}
