// Elimination modulo 2: rows of `width` words, one for each check, are reduced in the bits that a word leaves unknown, or brought to echelon form.
#![tactic(auto)]

mod checks;

ghost use Rattle.std.specs.Prelude.{◌≡◌, ◌*◌, ◌<◌, ◌≤◌, length};
ghost use Rattle.parity.specs.Matrix.{lent};
ghost use Rattle.elimination.specs.Reduction.{lifted, around, Turned, Reduction, Echelon};

use crate::checks::{add_check, clear, first_with, row_of};
use rows::whole::copy_words;
use rows::{next_one, words_of};

// In how many words rows of `bits` bits are reduced: in as many as they take, and in four where they take three, since the compiler makes a better loop of
// four than of three.
pub fn width_of(bits: usize) -> usize
    requires { bits ≤ 512 }
    ensures { (bits ≤ result * 64) × (result ≤ 8) }
{
    let used = words_of(bits);
    if used == 3 {
        return 4;
    }
    used
}

// Check `r` is added to each other check from `first` on that contains bit `b`. The loop goes over check `r` too, which is then put back: one loop is
// quicker than two, of those before it and of those behind it.
fn clear_around(rows: &mut [u64], width: usize, first: usize, checks: usize, r: usize, b: usize)
    requires { (checks * width ≤ length rows.old) × (width ≤ 8) × (b < width * 64) × (first ≤ r) × (r < checks) }
    ensures { lent width rows.new ≡ around first checks r b (lent width rows.old) }
{
    let row = row_of(rows, width, r);
    clear(rows, width, first, checks, &row, b);
    copy_words(&row, width, rows, r * width, width);
}

// Bit `b`, which check `p` contains, becomes the pivot of check `r`: no other check from `first` on contains it afterwards.
fn make_pivot_in(
    rows: &mut [u64],
    width: usize,
    first: usize,
    checks: usize,
    p: usize,
    r: usize,
    b: usize,
)
    requires { (checks * width ≤ length rows.old) × (width ≤ 8) × (b < width * 64) × (first ≤ r) × (r < checks) × (p < checks) }
    ensures { lent width rows.new ≡ around first checks r b (lifted p r (lent width rows.old)) }
{
    if p != r {
        add_check(rows, width, p, r);
    }
    clear_around(rows, width, first, checks, r, b);
}

// The same: where the number of words is known beforehand, it is quicker. Given checks have one or two, the checks of a few splits four (`width_of`), and those
// of all splits eight.
fn make_pivot(
    rows: &mut [u64],
    width: usize,
    first: usize,
    checks: usize,
    p: usize,
    r: usize,
    b: usize,
)
    requires { (checks * width ≤ length rows.old) × (width ≤ 8) × (b < width * 64) × (first ≤ r) × (r < checks) × (p < checks) }
    ensures { lent width rows.new ≡ around first checks r b (lifted p r (lent width rows.old)) }
{
    match width {
        1 => make_pivot_in(rows, 1, first, checks, p, r, b),
        2 => make_pivot_in(rows, 2, first, checks, p, r, b),
        4 => make_pivot_in(rows, 4, first, checks, p, r, b),
        8 => make_pivot_in(rows, 8, first, checks, p, r, b),
        _ => make_pivot_in(rows, width, first, checks, p, r, b),
    }
}

// The turn of bit `b`: it becomes the pivot of check `r` if one from `r` on contains it, and is cleared from the checks from `first` on. The answer is the
// number of pivots afterwards.
fn turn(
    rows: &mut [u64],
    width: usize,
    first: usize,
    checks: usize,
    r: usize,
    b: usize,
    pivots: &mut [usize],
) -> usize
    requires { (checks * width ≤ length rows.old) × (width ≤ 8) × (b < width * 64) × (first ≤ r) × (r ≤ checks) × (checks ≤ length pivots.old) }
    ensures { Turned first (lent width rows.old) (lent width rows.new) checks b r pivots.old result pivots.new }
{
    match first_with(rows, width, checks, r, b) {
        Some(p) => {
            make_pivot(rows, width, first, checks, p, r, b);
            pivots[r] = b;
            r + 1
        }
        None => r,
    }
}

// The rows are reduced in the bits of a set. The answer is the number of pivots, which stand in `pivots`, rising.
pub fn reduce_in(
    rows: &mut [u64],
    width: usize,
    checks: usize,
    set: &[u64],
    pivots: &mut [usize],
) -> usize
    requires { (checks * width ≤ length rows.old) × (width ≤ 8) × (width ≤ length set.now) × (checks ≤ length pivots.old) }
    ensures { Reduction (lent width rows.old) (lent width rows.new) (width * 64) checks
        (lent width set.now 0) (width * 64) result pivots.new }
{
    let end = width * 64;
    let mut r: usize = 0;
    let mut b = next_one(set, width, 0, 0);
    while b < end {
        r = turn(rows, width, 0, checks, r, b, pivots);
        b = next_one(set, width, 0, b + 1);
    }
    r
}

// Rows of two words, as given checks have, are brought to echelon form in their first `bits` bits: a pivot is cleared from the checks behind it alone, which
// is half the work. The answer is the number of pivots, which stand in `pivots`, rising.
pub fn to_echelon(rows: &mut [u64], checks: usize, bits: usize, pivots: &mut [usize]) -> usize
    requires { (checks * 2 ≤ length rows.old) × (bits ≤ 128) × (checks ≤ length pivots.old) }
    ensures { Echelon (lent 2 rows.old) (lent 2 rows.new) bits checks bits result pivots.new }
{
    let mut r: usize = 0;
    for b in 0..bits {
        r = turn(rows, 2, r, checks, r, b, pivots);
    }
    r
}
