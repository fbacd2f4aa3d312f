ghost use Rattle.std.specs.Prelude.{◌≡◌, ℕ, ◌<◌, ◌≤◌, false, not, ◌||◌, ◌==◌};
ghost use Rattle.marks.specs.Marks.{marked, missing, Lowest, count_below};

use crate::marks::Marks;

impl Marks {
    /// No run at all.
    pub fn none() -> Marks
        ensures { (k : ℕ) → marked result k ≡ false }
    {
        Marks { words: [0; 64] }
    }

    /// Adds a run. A number of 4,096 or above is none, and changes nothing.
    #[tactic(auto, using(crate::proofs::Words::bit_added))]
    pub fn add(&mut self, run: u16)
        ensures added { run < 4096 → (k : ℕ) → marked self.new k ≡ (marked self.old k || k == run) }
        ensures above { 4096 ≤ run → self.new ≡ self.old }
    {
        if run < 4096 {
            self.words[usize::from(run / 64)] |= 1 << (run % 64);
        }
    }

    /// Whether a run is there. A number of 4,096 or above never is.
    #[tactic(auto, using(crate::proofs::Words::bit_past), unfolding(crate::specs::Marks::bit, crate::specs::Marks::bit_of))]
    pub fn has(&self, run: u16) -> bool
        ensures { result ≡ marked self.now run }
    {
        self.words
            .get(usize::from(run / 64))
            .is_some_and(|word| (*word >> (run % 64)) % 2 == 1)
    }

    /// How many runs there are.
    pub fn count(&self) -> u16
        ensures { result ≡ count_below (marked self.now) 4096 }
    {
        let words = self.words.as_slice();
        // a word has at most 64 ones
        words.iter().map(|word| word.count_ones() as u16).sum()
    }

    /// The lowest run that is here and not there.
    pub fn first_missing(&self, there: &Marks) -> Option<u16>
        ensures { Lowest (missing self.now there.now) result }
    {
        for (i, (word, other)) in self.words.iter().zip(&there.words).enumerate() {
            let left = *word & !*other;
            if left != 0 {
                // both fit: there are 64 words of 64 bits
                return Some(i as u16 * 64 + left.trailing_zeros() as u16);
            }
        }
        None
    }
}
