ghost use Rattle.std.specs.Prelude.{◌≡◌, true};
ghost use Rattle.bits.specs.Bits.{bit, FirstOf};

/// The first place from `from` on, below `end`, whose bit is set.
pub fn next(words: &[u64], from: usize, end: usize) -> Option<usize>
    ensures { FirstOf (λ j. bit words.now j ≡ true) from «end» result }
{
    let mut at = from;
    // A step goes to the next word, and no sum of it may wrap: so it is compared with what is left.
    while at < end && at / 64 < words.len() {
        let left = end - at;
        let rest = words[at / 64] >> (at % 64);
        if rest != 0 {
            let zeros = rest.trailing_zeros() as usize;
            return if zeros < left { Some(at + zeros) } else { None };
        }
        let step = 64 - at % 64;
        if left <= step {
            return None;
        }
        at += step;
    }
    None
}
