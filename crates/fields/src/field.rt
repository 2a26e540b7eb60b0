ghost use Rattle.std.specs.Prelude.{◌≡◌, List, ℕ, Option};

/// What one word of a script can stand for.
pub trait Field: Sized {
    ghost meaning: { List ℕ → Option Self };

    /// The value that the word stands for.
    fn read(word: &[u8]) -> Option<Self>
        ensures { result ≡ meaning word.now };
}
