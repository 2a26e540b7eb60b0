ghost use Rattle.std.specs.Prelude.{◌≡◌, ◌<◌};
ghost use Rattle.bits.specs.Bits.{bit, room, Flipped, Inserted, Removed};

/// Whether the bit at a place is set; past the end none is.
pub fn has(words: &[u64], place: usize) -> bool
    ensures { result ≡ bit words.now place }
{
    words
        .get(place / 64)
        .is_some_and(|word| (*word >> (place % 64)) % 2 == 1)
}

/// Sets a bit. Answers whether it is there and was not set before.
pub fn insert(words: &mut [u64], place: usize) -> bool
    ensures { Inserted words.old words.new place result }
{
    if place / 64 >= words.len() || has(words, place) {
        return false;
    }
    flip(words, place);
    true
}

/// Clears a bit.
pub fn remove(words: &mut [u64], place: usize)
    ensures { Removed words.old words.new place }
{
    if has(words, place) {
        flip(words, place);
    }
}

/// Turns a bit over.
fn flip(words: &mut [u64], place: usize)
    requires { place < room words.old }
    ensures { Flipped words.old words.new place }
{
    words[place / 64] ^= 1u64 << (place % 64);
}
