// Columns after a split, and before it.
ghost use Rattle.std.specs.Prelude.{◌≡◌, ◌+◌, ◌*◌, ◌≤◌, ◌<◌, length, get_or, set};
ghost use Rattle.parity.specs.Matrix.{lent};
ghost use Rattle.columns.specs.Splits.{parted, joined, InWord, Parted, Joined};

use parity::Bit;

// Word `i` of the column of `x`.
fn word_at(cols: &[u64], width: usize, x: Bit, i: usize) -> u64
    requires { (x.0 * width + width ≤ length cols.now) × (i < width) }
    ensures { result ≡ get_or cols.now (x.0 * width + i) 0 }
{
    cols[x.0 * width + i]
}

// It becomes `w`.
fn put_word(cols: &mut [u64], width: usize, x: Bit, i: usize, w: u64)
    requires { (x.0 * width + width ≤ length cols.old) × (i < width) }
    ensures { cols.new ≡ set cols.old (x.0 * width + i) w }
{
    cols[x.0 * width + i] = w;
}

// What the columns of `u` and `v` have in common in word `i` is taken out of both, and is put into the column of `z`.
fn part_word(cols: &mut [u64], width: usize, u: Bit, v: Bit, z: Bit, i: usize)
    requires { (length cols.old ≡ 512 * width) × (u.0 < v.0) × (v.0 < z.0) × (z.0 < 512) × (i < width) }
    ensures { InWord (parted u.0 v.0 z.0) (lent width cols.old) (lent width cols.new) i }
{
    let a = word_at(cols, width, u, i);
    let b = word_at(cols, width, v, i);
    put_word(cols, width, u, i, a & !(a & b));
    put_word(cols, width, v, i, b & !(a & b));
    put_word(cols, width, z, i, a & b);
}

// The columns of `u`, `v` and `z` after the split of `u` and `v`.
pub fn part(cols: &mut [u64], width: usize, u: Bit, v: Bit, z: Bit)
    requires { (length cols.old ≡ 512 * width) × (u.0 < v.0) × (v.0 < z.0) × (z.0 < 512) }
    ensures { Parted (lent width cols.old) (lent width cols.new) u.0 v.0 z.0 }
{
    for i in 0..width {
        part_word(cols, width, u, v, z, i);
    }
}

// Word `i` of the column of `z` is put into those of `u` and `v`, and becomes 0.
fn join_word(cols: &mut [u64], width: usize, u: Bit, v: Bit, z: Bit, i: usize)
    requires { (length cols.old ≡ 512 * width) × (u.0 < v.0) × (v.0 < z.0) × (z.0 < 512) × (i < width) }
    ensures { InWord (joined u.0 v.0 z.0) (lent width cols.old) (lent width cols.new) i }
{
    let a = word_at(cols, width, u, i);
    let b = word_at(cols, width, v, i);
    let x = word_at(cols, width, z, i);
    put_word(cols, width, u, i, a | x);
    put_word(cols, width, v, i, b | x);
    put_word(cols, width, z, i, 0);
}

// The columns of `u`, `v` and `z` before the split of `u` and `v`.
pub fn join(cols: &mut [u64], width: usize, u: Bit, v: Bit, z: Bit)
    requires { (length cols.old ≡ 512 * width) × (u.0 < v.0) × (v.0 < z.0) × (z.0 < 512) }
    ensures { Joined (lent width cols.old) (lent width cols.new) u.0 v.0 z.0 }
{
    for i in 0..width {
        join_word(cols, width, u, v, z, i);
    }
}
