// Words of ones.
ghost use Rattle.std.specs.Prelude.{◌≡◌, true, length, replicate};

// Words of ones, one more than a matrix has.
pub fn ones() -> [u64; 4097]
    ensures { 4097 ≡ length result }
{
    [u64::MAX; 4097]
}

// Whether all words are ones.
pub fn are_ones(words: &[u64]) -> bool
    ensures { (result ≡ true → words.now ≡ replicate (length words.now) 0xffffffffffffffff) × (words.now ≡ replicate (length words.now) 0xffffffffffffffff → result ≡ true) }
{
    words.iter().all(|word| *word == u64::MAX)
}
