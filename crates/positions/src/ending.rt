ghost use Rattle.std.specs.Prelude.{◌≡◌};
ghost use Rattle.positions.specs.Built.{ends_at};

use crate::tables::Positions;

impl Positions {
    /// Whether a forest may end at a place of the type of row `inside`. A place is a row, at the start of its type, or 512 more than an item, behind it.
    pub fn may_end(&self, inside: u32, place: u32) -> bool
        ensures { result ≡ ends_at self.now inside place }
    {
        if place < 512 {
            self.nullable.has(place)
        } else {
            self.lasts.has(inside, place % 512)
        }
    }
}
