ghost use Rattle.std.specs.Prelude.{◌≡◌, length};

/// A set of run numbers below 4,096, as 64 words of 64 bits.
#[derive(Clone, Copy)]
pub struct Marks {
    // an array of bits and no set of the library's: nothing here allocates, and marks are copied
    pub(crate) words: [u64; 64],
    ghost full: { length words ≡ 64 },
}
