ghost use Rattle.std.specs.Prelude.{◌≡◌, ℕ, ◌<◌, MatchOption};
ghost use Rattle.subtyping.specs.Waits.{Nothing, InRow};
ghost use Rattle.subtyping.specs.Worklist.{number, Waiting, Fresh, Put, Popped};

use crate::pairs::{Pair, Pairs};
use bits::Relation;

/// The first item of a row.
fn first_item(relation: &Relation<16384>, row: u32) -> Option<u32>
    ensures { MatchOption result (Nothing relation.now.words row) (InRow relation.now.words row) }
{
    // Written with `?`, since the proof goes by whether there is one.
    let item = relation.items(row).next()?;
    Some(item)
}

impl Pairs {
    pub(crate) fn new() -> Pairs
        ensures { Fresh result }
    {
        Pairs {
            visited: Relation::new(),
            waiting: Relation::new(),
            places: [0; 32],
        }
    }

    /// Puts a pair where it was not visited yet.
    pub(crate) fn push(&mut self, pair: Pair)
        ensures { Put self.old self.new (λ x. x ≡ number pair) }
    {
        if self.visited.insert(pair.left, pair.right) {
            let _ = self.waiting.insert(pair.left, pair.right);
            let _ = bits::insert(&mut self.places, pair.left as usize);
        }
    }

    /// The first of the pairs that wait.
    fn first(&self) -> Option<Pair>
        ensures { MatchOption result ((x : ℕ) → Waiting self.now x → ⊥) (λ pair. Waiting self.now (number pair)) }
    {
        let left = bits::next(&self.places, 0, 2048)? as u32;
        let right = first_item(&self.waiting, left)?;
        Some(Pair { left, right })
    }

    /// Takes a pair from those that wait.
    pub(crate) fn pop(&mut self) -> Option<Pair>
        ensures { Popped self.old self.new result }
    {
        let pair = self.first()?;
        self.waiting.remove(pair.left, pair.right);
        if first_item(&self.waiting, pair.left).is_none() {
            bits::remove(&mut self.places, pair.left as usize);
        }
        Some(pair)
    }
}
