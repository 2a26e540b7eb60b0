ghost use Rattle.std.specs.Prelude.{◌≡◌, ℕ, ◌<◌, ◌&&◌, length, MatchOption};
ghost use Rattle.types.specs.Parts.{row as row_at, content as row_content, Root};
ghost use Rattle.types.specs.Belonging.{Subtype};
ghost use Rattle.types.specs.Places.{covers, Checked};
ghost use Rattle.types.specs.Tables.{Exactly};
ghost use Rattle.positions.specs.Below.{flag};
ghost use Rattle.positions.specs.Built.{types_of, Built};
ghost use Rattle.subtyping.specs.Worklist.{Put};
ghost use Rattle.subtyping.specs.Comparison.{moves_at, Answers, Leads, Expanded, Looked, Verdict, Small};

use crate::pairs::{Pair, Pairs};
use positions::{Moves, Positions};
use types::{content, cover};

/// A search for a difference between a row and a root.
#[derive(Drop)]
pub struct Search<'a> {
    pub(crate) positions: &'a Positions,
    /// The moves within the row asked about.
    pub(crate) local: Moves,
    /// The row asked about.
    pub(crate) row: u32,
    ghost row_low: { row < 512 },
}

impl Search<'_> {
    /// The moves of the type that the left place is in.
    fn moves(&self, pair: Pair) -> &Moves
        ensures { result.now ≡ moves_at self.now.positions.now self.now.local pair.left }
    {
        if pair.is_local() {
            &self.local
        } else {
            &self.positions.whole
        }
    }

    /// Whether an item can occur: it has a forest, and so has what is left behind it.
    fn can_occur(&self, moves: &Moves, item: u32) -> bool
        ensures { result ≡ (flag moves.now.live.marks item && flag self.now.positions.now.alive.marks item) }
    {
        moves.live.has(item) && self.positions.alive.has(item)
    }

    /// Whether one item covers another.
    fn covers(&self, item: u32, other: u32) -> bool
        ensures { result ≡ covers (row_at (types_of self.now.positions.now) item) (row_at (types_of self.now.positions.now) other) }
    {
        let types = &self.positions.types;
        cover(types.row(item as usize), types.row(other as usize))
    }

    /// An item that may come next at a place of whole types and covers `item`.
    fn covering(&self, place: u32, item: u32) -> Option<u32>
        ensures { MatchOption result ((m : ℕ) → Answers self.now.positions.now place item m → ⊥) (Answers self.now.positions.now place item) }
    {
        self.positions
            .whole
            .next
            .items(place)
            .find(|other| self.covers(item, *other))
    }

    /// The content of a row.
    fn content_of(&self, row: u32) -> Option<u32>
        ensures value { result ≡ row_content (row_at (types_of self.now.positions.now) row) }
        ensures small { Small result }
    {
        content(self.positions.types.row(row as usize))
    }

    /// Puts the pairs that an item on the left and its answer on the right lead to: the places behind them, and the starts of their contents.
    fn follow(&self, pair: Pair, item: u32, answer: u32, pairs: &mut Pairs)
        requires item { item < 512 }
        requires answer { answer < 512 }
        ensures { Put pairs.old pairs.new (Leads self.now.positions.now pair.left item answer) }
    {
        pairs.push(pair.behind(item, answer));
        if let (Some(left), Some(right)) = (self.content_of(item), self.content_of(answer)) {
            pairs.push(Pair { left, right });
        }
    }

    /// Answers each item that may come next on the left and can occur, and puts what that leads to. False if one has no answer.
    fn expand(&self, pair: Pair, pairs: &mut Pairs) -> bool
        ensures { Expanded self.now.positions.now (moves_at self.now.positions.now self.now.local pair.left) pair.left pair.right pairs.old pairs.new result }
    {
        let moves = self.moves(pair);
        let place = pair.right_place();
        for item in moves.next.items(pair.left_place()) {
            if self.can_occur(moves, item) {
                let Some(answer) = self.covering(place, item) else {
                    return false;
                };
                self.follow(pair, item, answer, pairs);
            }
        }
        true
    }

    /// Looks at one pair: where the left may end the right may, and each item on the left is answered. False if not.
    fn look(&self, pair: Pair, pairs: &mut Pairs) -> bool
        ensures { Looked self.now.positions.now self.now.local self.now.row pair.left pair.right pairs.old pairs.new result }
    {
        self.ends_alike(pair) && self.expand(pair, pairs)
    }

    /// Whether each pair that the starts of the row and a root lead to passes.
    fn passes(&self, root: u32) -> bool
        requires { root < 512 }
        ensures { Verdict self.now.positions.now self.now.local self.now.row root result }
    {
        let mut pairs = Pairs::new();
        pairs.push(Pair {
            left: 1024 + self.row,
            right: root,
        });
        while let Some(pair) = pairs.pop() {
            if !self.look(pair, &mut pairs) {
                return false;
            }
        }
        true
    }
}

/// Whether every forest of a row belongs to a root, where the tables are right, contents are roots and declared roots are one-way.
pub fn is_subtype(positions: &Positions, row: u32, root: u32) -> bool
    ensures { Built positions.now → row < length (types_of positions.now) → Root (types_of positions.now) root → (declared : ℕ) → Checked (types_of positions.now) declared → root < declared → Exactly result (Subtype (types_of positions.now) row root) }
{
    if row >= 512 || root >= 512 {
        return false;
    }
    let local = positions.up_to(row);
    let search = Search {
        positions,
        local,
        row,
    };
    search.passes(root)
}
