// A set of places of a text, a bit for each: 16,384 bits in 256 words of fixed memory, without a heap.
ghost use Rattle.std.specs.Prelude.{◌≡◌, ℕ, ◌<◌, ◌≤◌, Bool, false, ◌&&◌, ◌||◌, length, ◌==◌};
ghost use Rattle.layers.specs.Marks.{marked};

use texts::text::LONGEST;

// The clauses name the words: as a value a set of places would be a function, which no model's value may be.
#[derive(Clone, Copy)]
pub struct Marks {
    words: [u64; 256],
}

impl Marks {
    #[tactic(auto, using(crate::proofs::Marking::none_marked))]
    pub fn none() -> Marks
        ensures { (q : ℕ) → marked result.words q ≡ false }
    {
        Marks { words: [0; 256] }
    }

    // A place past the last bit is not in the set.
    pub fn holds(&self, place: usize) -> bool
        ensures { result ≡ marked self.now.words place }
    {
        self.words
            .get(place / 64)
            .is_some_and(|word| (word >> (place % 64)) & 1 == 1)
    }

    // Adds a place where it is wanted; there is no room past the last bit. The test of the place stands as in the
    // clauses, which `get_mut` of the word would hide.
    pub fn add_if(&mut self, place: usize, wanted: bool)
        ensures more { place < 16384 → (q : ℕ) → marked self.new.words q ≡ ((q == place && wanted) || marked self.old.words q) }
        ensures past { 16384 ≤ place → self.new ≡ self.old }
    {
        if wanted && place < LONGEST {
            self.words[place / 64] |= 1 << (place % 64);
        }
    }
}
