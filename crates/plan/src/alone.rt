// The reduced rows that determine a bit.
ghost use Rattle.std.specs.Prelude.{◌≡◌, ◌*◌, ◌≤◌, length};
ghost use Rattle.parity.specs.Matrix.{lent};
ghost use Rattle.lanes.specs.Lanes.{Low, checks_of, bits_of};
ghost use Rattle.plan.specs.Order.{Own, Listed};

use crate::note;
use lanes::Step;
use rows::common;

// Each of the first `r` rows that has no bit of the residue but its pivot is noted as a step, and its pivot leaves `left`. The answer is their number.
pub fn list_alone(
    rows: &[u64],
    width: usize,
    pivots: &[usize],
    r: usize,
    residue: &[u64],
    left: &mut [u64],
    steps: &mut [Step],
) -> usize
    requires width_in_bounds { (r * width ≤ length rows.now) × (width ≤ 8) × (r ≤ length pivots.now) × (length residue.now ≡ 8) × (length left.old ≡ 8) × (r ≤ 512) × (length steps.old ≡ 512) }
    requires low { Low r (width * 64) pivots.now × Own (lent width rows.now) r pivots.now }
    ensures { Listed (lent width rows.now) (width * 64) (lent width residue.now 0) pivots.now r (lent 8 left.old 0) (lent 8 left.new 0) (checks_of steps.new) (bits_of steps.new) result }
{
    let mut s: usize = 0;
    for c in 0..r {
        if common(rows, c, residue, 0, width, width) == 1 {
            note(left, steps, s, c, pivots[c]);
            s += 1;
        }
    }
    s
}
