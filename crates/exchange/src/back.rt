// Taking back a split on the words of the matrix.
ghost use Rattle.std.specs.Prelude.{◌≡◌, true, false, ◌≤◌, ◌<◌, length};
ghost use Rattle.parity.specs.Matrix.{lent, put};
ghost use Rattle.parity.specs.Cycles.{taken_back, others};
ghost use Rattle.exchange.specs.Merge.{Numbers};
ghost use Rattle.exchange.specs.Back.{Restored, Newer};

use parity::{Bit, Check};
use rows::bits::{has, put_in, take_out};

// Check `c` gets `u` and `v` in the place of `z`.
fn restore_check(words: &mut [u64], c: Check, u: Bit, v: Bit, z: Bit)
    requires { Numbers words.old c.0 u.0 v.0 z.0 }
    ensures { lent 8 words.new ≡ put c.0 v.0 true (put c.0 u.0 true (put c.0 z.0 false (lent 8 words.old))) }
{
    take_out(words, c, z);
    put_in(words, c, u);
    put_in(words, c, v);
}

// The given checks that contain `z` get `u` and `v` in its place; answers how many they are.
fn restore(words: &mut [u64], m: usize, u: Bit, v: Bit, z: Bit) -> u64
    requires { (length words.old ≡ 4096) × (m ≤ 120) × (u.0 < 512) × (v.0 < 512) × (z.0 < 512) }
    ensures { Restored (lent 8 words.old) (lent 8 words.new) m u.0 v.0 z.0 result }
{
    let mut s: u64 = 0;
    for d in 0..m {
        if has(words, Check(d), z) {
            restore_check(words, Check(d), u, v, z);
            s += 1;
        }
    }
    s
}

// The bits `u`, `v` and `z` leave check `c`.
fn remove_check(words: &mut [u64], c: Check, u: Bit, v: Bit, z: Bit)
    requires { Numbers words.old c.0 u.0 v.0 z.0 }
    ensures { lent 8 words.new ≡ put c.0 z.0 false (put c.0 v.0 false (put c.0 u.0 false (lent 8 words.old))) }
{
    take_out(words, c, u);
    take_out(words, c, v);
    take_out(words, c, z);
}

// The newest added bit `z` is taken back, whose own check `c` contains `u` and `v` besides; answers how many other checks contained it.
pub fn back_pair(words: &mut [u64], m: usize, c: Check, u: Bit, v: Bit, z: Bit) -> u64
    requires words_len { (length words.old ≡ 4096) × (m ≤ 120) × (c.0 < 512) × (u.0 < 512) × (v.0 < 512) × (z.0 < 512) }
    requires newer { Newer (lent 8 words.old) m z.0 c.0 u.0 v.0 }
    ensures { (lent 8 words.new ≡ taken_back (lent 8 words.old) z.0 c.0) × (result ≡ others (lent 8 words.old) z.0 c.0) }
{
    let s = restore(words, m, u, v, z);
    remove_check(words, c, u, v, z);
    s
}
