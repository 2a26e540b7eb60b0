ghost use Rattle.bits.specs.Items.{items_left};
ghost use Rattle.std.specs.Iterator.{YieldsFirst, item_count};

use crate::search;

/// The items of one row of a relation, lowest first.
#[derive(Clone, Drop)]
pub struct Items<'a> {
    pub(crate) words: &'a [u64],
    pub(crate) row: u32,
    pub(crate) from: u32,
}

impl Iterator for Items<'_> {
    type Item = u32;

    ghost next_gives = { YieldsFirst items_left };

    ghost remaining = { item_count items_left };

    fn next(&mut self) -> Option<u32> {
        let start = self.row as usize * 512;
        let place = search::next(self.words, start + self.from as usize, start + 512)?;
        let item = (place - start) as u32;
        self.from = item + 1;
        Some(item)
    }
}
