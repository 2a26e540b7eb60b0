ghost use Rattle.std.specs.Prelude.{◌≡◌, ◌%◌, ◌<◌, not, nat_lt};
ghost use Rattle.subtyping.specs.Comparison.{behind_item, right_place};

use crate::pairs::Pair;

impl Pair {
    /// Whether the left place is within the row asked about.
    pub(crate) fn is_local(self) -> bool
        ensures { result ≡ not (nat_lt self.left 1024) }
    {
        self.left >= 1024
    }

    /// The left place in its table of moves.
    pub(crate) fn left_place(self) -> u32
        ensures { result ≡ self.left % 1024 }
    {
        self.left % 1024
    }

    /// The right place in its table of moves.
    pub(crate) fn right_place(self) -> u32
        ensures { result ≡ right_place self.left self.right }
    {
        if self.left_place() < 512 {
            self.right
        } else {
            512 + self.right
        }
    }

    /// The pair of the places behind an item on the left and its answer on the right.
    pub(crate) fn behind(self, item: u32, answer: u32) -> Pair
        requires item { item < 512 }
        requires answer { answer < 512 }
        ensures left { result.left ≡ behind_item self.left item }
        ensures right { result.right ≡ answer }
    {
        Pair {
            left: self.left / 1024 * 1024 + (512 + item),
            right: answer,
        }
    }
}
