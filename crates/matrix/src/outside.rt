// Cause 3: a one at a bit or at a check that the code does not have.
ghost use Rattle.std.specs.Prelude.{◌≡◌, ◌+◌, ◌-◌, ◌*◌, ◌^◌, ◌≤◌, min, length};
ghost use Rattle.parity.specs.Matrix.{clean};
ghost use Rattle.matrix.specs.Masks.{Masks, RowIn, Ored};

use rows::meet;

// Ones at the bits of a row's word `p` that are at `bits` or above.
fn mask(bits: usize, p: usize) -> u64
    ensures { result ≡ 2 ^ 64 - 2 ^ min 64 (bits - p * 64) }
{
    let last = bits / 64;
    if p < last {
        return 0;
    }
    if p > last {
        return !0;
    }
    !((1 << (bits % 64)) - 1)
}

// The masks of a row's words.
fn masks(bits: usize, all: &mut [u64])
    ensures { Masks bits (length all.old) all.new }
{
    for p in 0..all.len() {
        all[p] = mask(bits, p);
    }
}

// The first `width` words of row `c` are put into the same words of `all`, by an or.
fn or_row(all: &mut [u64], rows: &[u64], width: usize, c: usize)
    requires { (c * width + width ≤ length rows.now) × (width ≤ length all.old) }
    ensures { RowIn width width rows.now c all.old all.new }
{
    for p in 0..width {
        all[p] |= rows[c * width + p];
    }
}

// The rows from `first` up to `end` are put into `all`, word by word, by an or.
fn or_rows(all: &mut [u64], rows: &[u64], width: usize, first: usize, end: usize)
    requires { (first ≤ end) × (end * width ≤ length rows.now) × (width ≤ length all.old) × Ored width first first rows.now all.old }
    ensures { Ored width first end rows.now all.new }
{
    for c in first..end {
        or_row(all, rows, width, c);
    }
}

// Whether no word has a one at bit `bits` or above, or at check `checks` or above.
pub fn is_clean(words: &[u64], bits: usize, checks: usize) -> bool
    requires { (length words.now ≡ 4096) × (bits ≤ 512) × (checks ≤ 512) }
    ensures { result ≡ clean 8 bits checks 0 words.now }
{
    let mut outside = [0u64; 8];
    masks(bits, &mut outside);
    let mut inner = [0u64; 8];
    or_rows(&mut inner, words, 8, 0, checks);
    let mut rest = [0u64; 8];
    or_rows(&mut rest, words, 8, checks, 512);
    (meet(&inner, 0, &outside, 0, 8, 8) | meet(&rest, 0, &rest, 0, 8, 8)) == 0
}
