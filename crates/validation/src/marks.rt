ghost use Rattle.std.specs.Prelude.{◌≡◌, ◌+◌, ◌*◌, ℕ, Bool, false, IfOk};
ghost use Rattle.bits.specs.Bits.{bit, related, Inserted};

use std::alloc::{AllocError, Global};

/// A tree has so many words, a bit for each row of a table of types.
const WORDS: usize = 8;

/// Marks on pairs of a tree and a row.
#[derive(Drop)]
pub(crate) struct Marks {
    pub(crate) words: Vec<u64>,
}

impl Marks {
    /// No marks, with room for those of so many trees.
    pub(crate) fn new(alloc: Global, trees: u32) -> Result<Marks, AllocError>
        ensures { IfOk result (λ marks. (j : ℕ) → bit marks.words.items j ≡ false) }
    {
        let words = vec![in alloc; 0; trees as usize * WORDS]?;
        Ok(Marks { words })
    }

    /// Whether a pair is marked.
    pub(crate) fn has(&self, tree: u32, row: u32) -> bool
        ensures { result ≡ related self.now.words.items tree row }
    {
        bits::has(&self.words, place(tree, row))
    }

    /// Marks a pair.
    pub(crate) fn insert(&mut self, tree: u32, row: u32)
        ensures { (fresh : Bool) × Inserted self.old.words.items self.new.words.items (tree * 512 + row) fresh }
    {
        let _ = bits::insert(&mut self.words, place(tree, row));
    }
}

/// The place of a pair.
fn place(tree: u32, row: u32) -> usize
    ensures { result ≡ tree * 512 + row }
{
    tree as usize * 512 + row as usize
}
