// The ones of a check: how many there are, and the next one.
ghost use Rattle.std.specs.Prelude.{◌≡◌, ◌≤◌, ◌<◌, length};
ghost use Rattle.parity.specs.Finite.{count};
ghost use Rattle.parity.specs.Matrix.{lent};
ghost use Rattle.rows.specs.Rows.{NextOne};

use parity::Check;

// How many bits check `c` contains.
pub fn weight(words: &[u64], c: Check) -> usize
    requires { (length words.now ≡ 4096) × (c.0 < 512) }
    ensures { result ≡ count 512 (lent 8 words.now c.0) }
{
    crate::weight(words, 8, c.0)
}

// The first bit at `from` or above that check `c` contains, and 512 if it contains none there.
pub fn next_one(words: &[u64], c: Check, from: usize) -> usize
    requires { (length words.now ≡ 4096) × (c.0 < 512) × (from ≤ 512) }
    ensures { NextOne 512 (lent 8 words.now c.0) from result }
{
    crate::next_one(words, 8, c.0, from)
}
