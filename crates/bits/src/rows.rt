ghost use Rattle.bits.specs.Bits.{United};

/// A row has so many words.
const ROW: usize = 8;

/// Adds the bits of the row `from` to the row `to`, where both are wholly there.
pub fn unite(words: &mut [u64], to: usize, from: usize)
    ensures { United words.old words.new to from }
{
    let rows = words.len() / ROW;
    if to < rows && from < rows {
        // Both rows lie in one slice, so their words go by number: two borrows of it would have to be split at the lower row.
        for word in 0..ROW {
            words[to * ROW + word] |= words[from * ROW + word];
        }
    }
}
