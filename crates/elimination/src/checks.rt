// Rows of `width` words of 64 bits, one for each check.
ghost use Rattle.std.specs.Prelude.{◌≡◌, ◌+◌, ◌*◌, ◌/◌, ◌<◌, ◌≤◌, length};
ghost use Rattle.parity.specs.Matrix.{lent};
ghost use Rattle.rows.specs.Whole.{plus};
ghost use Rattle.elimination.specs.Reduction.{when, cleared, FirstOf};
ghost use Rattle.elimination.specs.Rows.{Blank, RowOf};

use rows::contains;
use rows::whole::{add_row, copy_words};

// Two rows: an empty one, and that of check `c`.
pub fn row_of(rows: &[u64], width: usize, c: usize) -> [u64; 16]
    requires { (c * width + width ≤ length rows.now) × (width ≤ 8) }
    ensures { RowOf width rows.now c result }
{
    let mut row = [0u64; 16];
    copy_words(rows, c * width, &mut row, width, width);
    row
}

// Check `p` is added to check `c`, another one, modulo 2.
pub fn add_check(rows: &mut [u64], width: usize, p: usize, c: usize)
    requires { (p * width + width ≤ length rows.old) × (c * width + width ≤ length rows.old) × (p ≡ c → ⊥) }
    ensures { lent width rows.new ≡ plus c (lent width rows.old p) (lent width rows.old) }
{
    for i in 0..width {
        rows[c * width + i] ^= rows[p * width + i];
    }
}

// The row is added to check `c` if the check contains bit `b`. The bit picks the row, without a branch: which checks contain it is hard to foresee.
fn clear_check(rows: &mut [u64], width: usize, c: usize, row: &[u64], b: usize)
    requires { (c * width + width ≤ length rows.old) × (width ≤ 8) × (b < width * 64) × Blank width row.now }
    ensures { lent width rows.new
        ≡ plus c (when (lent width rows.old c b) (lent width row.now 1)) (lent width rows.old) }
{
    let pick = ((rows[c * width + b / 64] >> (b % 64)) % 2) as usize;
    add_row(rows, width, c, row, pick);
}

// The row is added to each check from `first` up to `end` that contains bit `b`.
fn clear_rows(rows: &mut [u64], width: usize, first: usize, end: usize, row: &[u64], b: usize)
    requires { (first ≤ end) × (end * width ≤ length rows.old) × (width ≤ 8) × (b < width * 64) × Blank width row.now }
    ensures { lent width rows.new ≡ cleared (lent width row.now 1) b first end (lent width rows.old) }
{
    for c in first..end {
        clear_check(rows, width, c, row, b);
    }
}

// The same: of three words, as the checks of a few splits have, it is quicker where their number is known beforehand.
pub fn clear(rows: &mut [u64], width: usize, first: usize, end: usize, row: &[u64], b: usize)
    requires { (first ≤ end) × (end * width ≤ length rows.old) × (width ≤ 8) × (b < width * 64) × Blank width row.now }
    ensures { lent width rows.new ≡ cleared (lent width row.now 1) b first end (lent width rows.old) }
{
    match width {
        3 => clear_rows(rows, 3, first, end, row, b),
        _ => clear_rows(rows, width, first, end, row, b),
    }
}

// The first check from `first` on that contains bit `b`.
pub fn first_with(
    rows: &[u64],
    width: usize,
    checks: usize,
    first: usize,
    b: usize,
) -> Option<usize>
    requires { (checks * width ≤ length rows.now) × (b < width * 64) × (first ≤ checks) }
    ensures { FirstOf (lent width rows.now) checks first b result }
{
    for c in first..checks {
        if contains(rows, width, c, b) {
            return Some(c);
        }
    }
    None
}
