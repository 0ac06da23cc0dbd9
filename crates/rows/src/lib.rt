// Rows of `width` words of 64 bits: the checks of a matrix, its columns, or a set of bits, which is one row.
#![tactic(auto)]

pub mod bits;
pub mod ones;
pub mod whole;

ghost use Rattle.std.specs.Prelude.{◌≡◌, true, false, not, ◌&&◌, ◌+◌, ◌*◌, ◌^◌, ◌≤◌, ◌<◌, eqb, length};
ghost use Rattle.std.specs.Int.Count.{ones as onesOf};
ghost use Rattle.parity.specs.Finite.{count};
ghost use Rattle.parity.specs.Matrix.{lent, put};
ghost use Rattle.parity.specs.Words.{inside, odd};
ghost use Rattle.rows.specs.Rows.{HasBit, NextOne};
ghost use Rattle.rows.specs.Zeros.{Zeros, both, Zeroed};

// How many words of a row the first `bits` bits take.
pub fn words_of(bits: usize) -> usize
    requires { bits ≤ 512 }
    ensures { (bits ≤ result * 64) × (result * 64 < bits + 64) }
{
    let mut used: usize = 0;
    while used * 64 < bits {
        used += 1;
    }
    used
}

// What `f` makes of a number of words. Where it is one, two or eight, it is a constant for the compiler.
pub fn with_known<R, F: FnOnce(usize) -> R>(used: usize, f: F) -> R
    requires { F.pre f used }
    ensures { F.post f used result }
{
    match used {
        1 => f(1),
        2 => f(2),
        8 => f(8),
        _ => f(used),
    }
}

// How many ones a word has.
pub fn ones_of(x: u64) -> usize
    ensures { (result ≡ onesOf x) × (result ≤ 64) }
{
    u64::count_ones(x) as usize
}

// Whether row `c` contains bit `b`.
pub fn contains(rows: &[u64], width: usize, c: usize, b: usize) -> bool
    requires { HasBit rows.now width c b }
    ensures { result ≡ lent width rows.now c b }
{
    rows[c * width + b / 64] & (1 << (b % 64)) != 0
}

// Bit `b` is put into row `c`.
pub fn raise(rows: &mut [u64], width: usize, c: usize, b: usize)
    requires { HasBit rows.old width c b }
    ensures { lent width rows.new ≡ put c b true (lent width rows.old) }
{
    let i = c * width + b / 64;
    rows[i] |= 1 << (b % 64);
}

// Bit `b` is taken out of row `c`.
pub fn lower(rows: &mut [u64], width: usize, c: usize, b: usize)
    requires { HasBit rows.old width c b }
    ensures { lent width rows.new ≡ put c b false (lent width rows.old) }
{
    let i = c * width + b / 64;
    rows[i] &= !(1 << (b % 64));
}

// How many bits row `c` contains.
pub fn weight(rows: &[u64], width: usize, c: usize) -> usize
    requires { (c * width + width ≤ length rows.now) × (width ≤ 8) }
    ensures { result ≡ count (width * 64) (lent width rows.now c) }
{
    let mut n: usize = 0;
    for i in 0..width {
        n += ones_of(rows[c * width + i]);
    }
    n
}

// How many bits row `i` of `a` and row `j` of `b` have in common in their first `used` words.
pub fn common(a: &[u64], i: usize, b: &[u64], j: usize, width: usize, used: usize) -> usize
    requires { (i * width + width ≤ length a.now) × (j * width + width ≤ length b.now) × (used ≤ width) × (width ≤ 8) }
    ensures { result ≡ count (used * 64) (λ t. lent width a.now i t && lent width b.now j t) }
{
    let mut n: usize = 0;
    for p in 0..used {
        n += ones_of(a[i * width + p] & b[j * width + p]);
    }
    n
}

// How many of the bits below `bits` row `c` contains.
pub fn weight_below(rows: &[u64], width: usize, c: usize, bits: usize) -> usize
    requires { (c * width + width ≤ length rows.now) × (bits < width * 64) × (width ≤ 8) }
    ensures { result ≡ count bits (lent width rows.now c) }
{
    let full = bits / 64;
    let last = rows[c * width + full] & ((1 << (bits % 64)) - 1);
    common(rows, c, rows, c, width, full) + ones_of(last)
}

// Whether row `c` contains an odd number of the set's bits in its first `used` words.
pub fn is_odd(rows: &[u64], width: usize, used: usize, c: usize, set: &[u64]) -> bool
    requires { (c * width + width ≤ length rows.now) × (width ≤ length set.now) × (used ≤ width) }
    ensures { result ≡ odd (inside (lent width rows.now) (used * 64) c (lent width set.now 0)) }
{
    let mut acc: u64 = 0;
    for i in 0..used {
        acc ^= rows[c * width + i] & set[i];
    }
    u64::count_ones(acc) & 1 == 1
}

// The or of what each of the first `used` words of row `i` of `a` and the same word of row `j` of `b` have in common.
pub fn meet(a: &[u64], i: usize, b: &[u64], j: usize, width: usize, used: usize) -> u64
    requires { (i * width + width ≤ length a.now) × (j * width + width ≤ length b.now) × (used ≤ width) }
    ensures { Zeros 0 used (both width a.now i b.now j) result }
{
    let mut acc: u64 = 0;
    for p in 0..used {
        acc |= a[i * width + p] & b[j * width + p];
    }
    acc
}

// Whether row `i` of `a` and row `j` of `b` have a bit in common in their first `used` words.
pub fn touches(a: &[u64], i: usize, b: &[u64], j: usize, width: usize, used: usize) -> bool
    requires { (i * width + width ≤ length a.now) × (j * width + width ≤ length b.now) × (used ≤ width) }
    ensures { result ≡ not (eqb (count (used * 64) (λ t. lent width a.now i t && lent width b.now j t)) 0) }
{
    meet(a, i, b, j, width, used) != 0
}

// The first bit of row `c` from word `from` on, and `width * 64` if there is none.
fn next_in_words(rows: &[u64], width: usize, c: usize, from: usize) -> usize
    requires { (c * width + width ≤ length rows.now) × (width * 64 < 2 ^ 64) × (from ≤ width) }
    ensures { NextOne (width * 64) (lent width rows.now c) (from * 64) result }
{
    for i in from..width {
        let x = rows[c * width + i];
        if x != 0 {
            return i * 64 + u64::trailing_zeros(x) as usize;
        }
    }
    width * 64
}

// The first bit at `from` or above that row `c` contains, and `width * 64` if it contains none there.
pub fn next_one(rows: &[u64], width: usize, c: usize, from: usize) -> usize
    requires { (c * width + width ≤ length rows.now) × (width * 64 < 2 ^ 64) × (from ≤ width * 64) }
    ensures { NextOne (width * 64) (lent width rows.now c) from result }
{
    let i = from / 64;
    if i == width {
        return from;
    }
    let x = rows[c * width + i] & !((1 << (from % 64)) - 1);
    if x != 0 {
        return i * 64 + u64::trailing_zeros(x) as usize;
    }
    next_in_words(rows, width, c, i + 1)
}
