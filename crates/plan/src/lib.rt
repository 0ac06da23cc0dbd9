// What is to be done for given losses: the order of the checks to solve, and the reduced rows that determine what peeling leaves.
#![tactic(auto)]

pub mod alone;
pub mod order;

ghost use Rattle.std.specs.Prelude.{◌≡◌, false, ◌<◌, length};
ghost use Rattle.parity.specs.Matrix.{lent, put};
ghost use Rattle.plan.specs.Order.{Noted};

use lanes::Step;
use rows::lower;

// Step `s` is noted, by which check or row `c` solves bit `b`: the bit leaves the set.
fn note(left: &mut [u64], steps: &mut [Step], s: usize, c: usize, b: usize)
    requires { (length left.old ≡ 8) × (s < length steps.old) × (c < 512) × (b < 512) }
    ensures left_after { lent 8 left.new ≡ put 0 b false (lent 8 left.old) }
    ensures steps_after { Noted steps.old steps.new s c b }
{
    lower(left, 8, 0, b);
    steps[s] = Step {
        check: c as u16,
        bit: b as u16,
    };
}
