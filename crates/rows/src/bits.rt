// Single bits of the matrix.
ghost use Rattle.std.specs.Prelude.{◌≡◌, true, false};
ghost use Rattle.parity.specs.Matrix.{lent, put};
ghost use Rattle.rows.specs.Rows.{HasPlace};

use crate::{contains, lower, raise};
use parity::{Bit, Check};

// Whether check `c` contains bit `b`.
pub fn has(words: &[u64], c: Check, b: Bit) -> bool
    requires { HasPlace words.now c.0 b.0 }
    ensures { result ≡ lent 8 words.now c.0 b.0 }
{
    contains(words, 8, c.0, b.0)
}

// Bit `b` is put into check `c`.
pub fn put_in(words: &mut [u64], c: Check, b: Bit)
    requires { HasPlace words.old c.0 b.0 }
    ensures { lent 8 words.new ≡ put c.0 b.0 true (lent 8 words.old) }
{
    raise(words, 8, c.0, b.0);
}

// Bit `b` is taken out of check `c`.
pub fn take_out(words: &mut [u64], c: Check, b: Bit)
    requires { HasPlace words.old c.0 b.0 }
    ensures { lent 8 words.new ≡ put c.0 b.0 false (lent 8 words.old) }
{
    lower(words, 8, c.0, b.0);
}
