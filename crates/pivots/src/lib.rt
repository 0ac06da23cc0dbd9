// What reduced rows say: a contradiction, or the value of a pivot whose row has no other bit of the residue.
#![tactic(auto)]

ghost use Rattle.std.specs.Prelude.{◌≡◌, ◌+◌, ◌*◌, ◌<◌, ◌≤◌, length};
ghost use Rattle.parity.specs.Matrix.{lent};
ghost use Rattle.pivots.specs.Pivots.{EvenFrom, PivotWritten, PivotsWritten, Low};

use rows::{common, is_odd, lower, raise};

// Whether the rows from `first` up to `end` contain an even number of the set's bits each.
pub fn even_from(rows: &[u64], width: usize, first: usize, end: usize, set: &[u64]) -> bool
    requires { (end * width ≤ length rows.now) × (width ≤ length set.now) }
    ensures { EvenFrom (lent width rows.now) (width * 64) first end (lent width set.now 0) result }
{
    for c in first..end {
        if is_odd(rows, width, width, c, set) {
            return false;
        }
    }
    true
}

// Bit `b` leaves `left` if row `c` has no other bit of the residue, and then gets the value that makes the row even.
fn write_pivot(
    rows: &[u64],
    width: usize,
    c: usize,
    b: usize,
    residue: &[u64],
    known: &[u64],
    left: &mut [u64],
    values: &mut [u64],
)
    requires { (c * width + width ≤ length rows.now) × (width ≤ 8) × (b < 512) × (length residue.now ≡ 8) × (length known.now ≡ 8) × (length left.old ≡ 8) × (length values.old ≡ 8) }
    ensures { PivotWritten (lent width rows.now) (width * 64) (lent width residue.now 0) (lent width known.now 0) c b (lent 8 left.old 0) (lent 8 values.old 0) (lent 8 left.new 0) (lent 8 values.new 0) }
{
    if common(rows, c, residue, 0, width, width) != 1 {
        return;
    }
    let odd = is_odd(rows, width, width, c, known);
    lower(left, 8, 0, b);
    if odd {
        raise(values, 8, 0, b);
    }
}

// The pivot of each of the rows leaves `left` if its row has no other bit of the residue, and then gets its value.
pub fn write_pivots(
    rows: &[u64],
    width: usize,
    pivots: &[usize],
    residue: &[u64],
    known: &[u64],
    left: &mut [u64],
    values: &mut [u64],
)
    requires { (length pivots.now * width ≤ length rows.now) × (width ≤ 8) × (length residue.now ≡ 8) × (length known.now ≡ 8) × (length left.old ≡ 8) × (length values.old ≡ 8) × Low (length pivots.now) 512 pivots.now }
    ensures { PivotsWritten (lent width rows.now) (width * 64) (lent width residue.now 0) (lent width known.now 0) pivots.now (length pivots.now) (lent 8 left.old 0) (lent 8 values.old 0) (lent 8 left.new 0) (lent 8 values.new 0) }
{
    for (c, b) in pivots.iter().enumerate() {
        write_pivot(rows, width, c, *b, residue, known, left, values);
    }
}
