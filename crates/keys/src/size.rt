// How long a file key is.
ghost use Rattle.std.specs.Prelude.{◌≡◌, ◌≤◌, MatchOption};

// A number of bytes from 1 to 16.
#[derive(Clone, Copy)]
pub struct KeySize {
    pub(crate) n: usize,
    ghost some: { 1 ≤ n },
    ghost most: { n ≤ 16 },
}

impl KeySize {
    // The number as the size of a key; none where no key has that size.
    pub fn new(n: usize) -> Option<KeySize>
        ensures { MatchOption result ((1 ≤ n) × (n ≤ 16) → ⊥) (λ s. s.n ≡ n) }
    {
        if n < 1 || n > 16 {
            return None;
        }
        Some(KeySize { n })
    }

    // The number.
    pub fn get(&self) -> usize
        ensures value { result ≡ self.now.n }
        ensures some { 1 ≤ result }
        ensures most { result ≤ 16 }
    {
        self.n
    }
}
