ghost use Rattle.std.specs.Prelude.{◌≡◌};
ghost use Rattle.subtyping.specs.Comparison.{ends_left, ends_right, ends_alike};

use crate::pairs::Pair;
use crate::search::Search;

impl Search<'_> {
    /// Whether a forest may end at the left place.
    fn ends_left(&self, pair: Pair) -> bool
        ensures { result ≡ ends_left self.now.positions.now self.now.row pair.left }
    {
        let inside = if pair.is_local() {
            self.row
        } else {
            self.positions.top(pair.left % 512)
        };
        self.positions.may_end(inside, pair.left_place())
    }

    /// Whether a forest may end at the right place.
    fn ends_right(&self, pair: Pair) -> bool
        ensures { result ≡ ends_right self.now.positions.now pair.left pair.right }
    {
        self.positions
            .may_end(self.positions.top(pair.right), pair.right_place())
    }

    /// Whether a forest may end on the right, where it may on the left.
    pub(crate) fn ends_alike(&self, pair: Pair) -> bool
        ensures { result ≡ ends_alike self.now.positions.now self.now.row pair.left pair.right }
    {
        !self.ends_left(pair) || self.ends_right(pair)
    }
}
