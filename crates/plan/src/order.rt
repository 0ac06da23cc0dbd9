// The order in which peeling solves checks.
ghost use Rattle.std.specs.Prelude.{◌≡◌, ◌*◌, ◌≤◌, length};
ghost use Rattle.parity.specs.Matrix.{lent};
ghost use Rattle.rows.specs.Rows.{Empty};
ghost use Rattle.search.specs.Live.{Listed};
ghost use Rattle.sets.specs.Sets.{Short};
ghost use Rattle.lanes.specs.Lanes.{checks_of, bits_of};
ghost use Rattle.plan.specs.Order.{Settling, Joined};

use crate::note;
use lanes::Step;
use parity::Check;
use rows::raise;
use search::{list, next_in};
use sets::touches;

// Notes steps as long as one of the checks listed, the first `checks`, has exactly one erased bit, in the first `used` words. The answer is their number; `done` gets the checks
// that they solve.
fn settle_listed(
    words: &[u64],
    used: usize,
    checks: usize,
    live: &mut [u16],
    erased: &mut [u64],
    done: &mut [u64],
    steps: &mut [Step],
) -> usize
    requires words_len { (length words.now ≡ 4096) × (checks ≤ 512) × (length erased.old ≡ 8) × (length done.old ≡ 8) × (used ≤ 8) × (length steps.old ≡ 512) × Short (used * 64) (lent 8 erased.old 0) }
    requires empty { Empty (lent 8 done.old) × (length live.old ≡ 512) × Listed checks live.old }
    ensures { Settling (lent 8 words.now) (used * 64) checks (lent 8 erased.old 0) (lent 8 erased.new 0) (checks_of steps.new) (bits_of steps.new) result (lent 8 done.new 0) }
{
    let mut s: usize = 0;
    let mut count = checks;
    let mut from: usize = 0;
    let mut kept: usize = 0;
    loop {
        let next = next_in(words, used, checks, live, count, from, kept, erased);
        match next.alone {
            Some(alone) => {
                note(erased, steps, s, alone.check.0, alone.bit.0);
                raise(done, 8, 0, alone.check.0);
                s += 1;
                from = alone.place + 1;
                kept = next.kept;
            }
            None => {
                if from == 0 {
                    break;
                }
                count = next.kept;
                from = 0;
                kept = 0;
            }
        }
    }
    s
}

// The same of the first `checks` checks.
pub fn settle(
    words: &[u64],
    used: usize,
    checks: usize,
    erased: &mut [u64],
    done: &mut [u64],
    steps: &mut [Step],
) -> usize
    requires words_len { (length words.now ≡ 4096) × (checks ≤ 512) × (length erased.old ≡ 8) × (length done.old ≡ 8) × (used ≤ 8) × (length steps.old ≡ 512) × Short (used * 64) (lent 8 erased.old 0) }
    requires empty { Empty (lent 8 done.old) }
    ensures { Settling (lent 8 words.now) (used * 64) checks (lent 8 erased.old 0) (lent 8 erased.new 0) (checks_of steps.new) (bits_of steps.new) result (lent 8 done.new 0) }
{
    let mut live = [0u16; 512];
    list(checks, &mut live);
    settle_listed(words, used, checks, &mut live, erased, done, steps)
}

// The checks that have an erased bit join `done`.
pub fn join_touched(words: &[u64], used: usize, checks: usize, erased: &[u64], done: &mut [u64])
    requires { (length words.now ≡ 4096) × (checks ≤ 512) × (length erased.now ≡ 8) × (length done.old ≡ 8) × (used ≤ 8) }
    ensures { Joined (lent 8 words.now) (used * 64) checks (lent 8 erased.now 0) (lent 8 done.old 0) (lent 8 done.new 0) }
{
    for c in 0..checks {
        if touches(words, used, Check(c), erased) {
            raise(done, 8, 0, c);
        }
    }
}
