// The steps of a plan, in all lanes of a tile at once.
ghost use Rattle.std.specs.Prelude.{◌≡◌, ◌+◌, ◌*◌, ◌≤◌, ◌<◌, length};
ghost use Rattle.parity.specs.Matrix.{lent};
ghost use Rattle.lanes.specs.Lanes.{Meets, either, Solved, Ran, Checked, Tested, Low, checks_of, bits_of};

use crate::sums::sum_of;
use crate::{Plan, Step};
use rows::contains;

// The bits of a row enter row `c`.
fn put_row(rows: &mut [u64], width: usize, c: usize, row: &[u64])
    requires { (c * width + width ≤ length rows.old) × (width ≤ length row.now) }
    ensures { lent width rows.new ≡ either c (lent width row.now 0) (lent width rows.old) }
{
    for i in 0..width {
        rows[c * width + i] = rows[c * width + i] | row[i];
    }
}

// Bit `b` is solved by check `c`.
fn solve_lanes(
    rows: &[u64],
    width: usize,
    used: usize,
    c: usize,
    tile: &mut [u64],
    lanes: usize,
    b: usize,
)
    requires { Meets width used lanes rows.now tile.old c × (b < used * 64) }
    ensures { Solved (lent width rows.now) (used * 64) c b (lent lanes tile.old) (lent lanes tile.new) }
{
    let sum = sum_of(rows, width, used, c, tile, lanes);
    put_row(tile, lanes, b, &sum);
}

// The same: where the number of words is known beforehand, the sum is kept in registers.
fn solve(
    rows: &[u64],
    width: usize,
    used: usize,
    c: usize,
    tile: &mut [u64],
    lanes: usize,
    b: usize,
)
    requires { Meets width used lanes rows.now tile.old c × (b < used * 64) }
    ensures { Solved (lent width rows.now) (used * 64) c b (lent lanes tile.old) (lent lanes tile.new) }
{
    if lanes == 16 {
        solve_lanes(rows, width, used, c, tile, 16, b);
        return;
    }
    if lanes == 8 {
        solve_lanes(rows, width, used, c, tile, 8, b);
        return;
    }
    solve_lanes(rows, width, used, c, tile, lanes, b);
}

// The lanes in which check `c` contains an odd number of ones are flagged.
fn test_lanes(
    rows: &[u64],
    width: usize,
    used: usize,
    c: usize,
    tile: &[u64],
    lanes: usize,
    flags: &mut [u64],
)
    requires { Meets width used lanes rows.now tile.now c × (lanes ≤ length flags.old) }
    ensures { Checked (lent width rows.now) (used * 64) c (lent lanes tile.now) (lent lanes flags.old 0) (lent lanes flags.new 0) }
{
    let sum = sum_of(rows, width, used, c, tile, lanes);
    put_row(flags, lanes, 0, &sum);
}

// The same, as `solve` is `solve_lanes`.
fn test(
    rows: &[u64],
    width: usize,
    used: usize,
    c: usize,
    tile: &[u64],
    lanes: usize,
    flags: &mut [u64],
)
    requires { Meets width used lanes rows.now tile.now c × (lanes ≤ length flags.old) }
    ensures { Checked (lent width rows.now) (used * 64) c (lent lanes tile.now) (lent lanes flags.old 0) (lent lanes flags.new 0) }
{
    if lanes == 16 {
        test_lanes(rows, width, used, c, tile, 16, flags);
        return;
    }
    if lanes == 8 {
        test_lanes(rows, width, used, c, tile, 8, flags);
        return;
    }
    test_lanes(rows, width, used, c, tile, lanes, flags);
}

// Step by step, a bit is solved by a check, of `count` in rows of `width` words.
pub fn solve_in(rows: &[u64], width: usize, count: usize, steps: &[Step], p: Plan, tile: &mut [u64])
    requires width_in_bounds { (count * width ≤ length rows.now) × (p.used ≤ width) × (width ≤ 8) × (p.used * 64 * p.lanes ≤ length tile.old) × (p.lanes ≤ 16) }
    requires low { Low (length steps.now) count (checks_of steps.now) × Low (length steps.now) (p.used * 64) (bits_of steps.now) }
    ensures { Ran (lent width rows.now) (p.used * 64) (checks_of steps.now) (bits_of steps.now) (length steps.now) (lent p.lanes tile.old) (lent p.lanes tile.new) }
{
    for step in steps {
        let (c, b) = (step.check as usize, step.bit as usize);
        solve(rows, width, p.used, c, tile, p.lanes, b);
    }
}

// Each lane in which a check from `first` up to `end`, but those of `skip`, contains an odd number of ones is flagged.
pub fn test_in(
    rows: &[u64],
    width: usize,
    first: usize,
    end: usize,
    skip: &[u64],
    p: Plan,
    tile: &[u64],
    flags: &mut [u64],
)
    requires { (end * width ≤ length rows.now) × (p.used ≤ width) × (width ≤ 8) × (p.used * 64 * p.lanes ≤ length tile.now) × (p.lanes ≤ 16) × (p.lanes ≤ length flags.old) × (end ≤ 512) × (length skip.now ≡ 8) × (first ≤ end) }
    ensures { Tested (lent width rows.now) (p.used * 64) first end (lent 8 skip.now 0) (lent p.lanes tile.now) (lent p.lanes flags.old 0) (lent p.lanes flags.new 0) }
{
    for c in first..end {
        if !contains(skip, 8, 0, c) {
            test(rows, width, p.used, c, tile, p.lanes, flags);
        }
    }
}
