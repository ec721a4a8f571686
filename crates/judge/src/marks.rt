// Marks of the numbers 0 to 831, packed 64 to a word.
ghost use Rattle.std.specs.Prelude.{◌≡◌, ◌<◌, replicate};
ghost use Rattle.judge.specs.Marks.{in_words, marking};

// So many marks to a word.
const BITS: usize = 64;

#[derive(Clone, Copy)]
pub(crate) struct Marks {
    pub(crate) words: [u64; 13],
}

impl Marks {
    // No number is marked.
    pub(crate) fn none() -> Self
        ensures { result.words ≡ replicate 13 0 }
    {
        Marks { words: [0; 13] }
    }

    // Whether a number is marked.
    pub(crate) fn has(&self, k: usize) -> bool
        requires { k < 832 }
        ensures { result ≡ in_words self.now.words k }
    {
        (self.words[k / BITS] >> (k % BITS)) % 2 == 1
    }

    // Marks a number, which may be marked before.
    pub(crate) fn add(&mut self, k: usize)
        requires { k < 832 }
        ensures { self.new.words ≡ marking self.old.words k }
    {
        self.words[k / BITS] |= 1 << (k % BITS);
    }
}
