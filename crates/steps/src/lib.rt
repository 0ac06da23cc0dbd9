// Peeling on sets of bits: checks with exactly one erased bit are solved, on the sets of the erased bits and of the ones.
#![tactic(auto)]

ghost use Rattle.std.specs.Prelude.{◌≡◌, ◌*◌, ◌<◌, ◌≤◌, length};
ghost use Rattle.parity.specs.Matrix.{lent};
ghost use Rattle.parity.specs.Words.{inside, odd};
ghost use Rattle.search.specs.Live.{Listed};
ghost use Rattle.sets.specs.Sets.{Short};
ghost use Rattle.steps.specs.Steps.{Solved, Settled};

use parity::{Bit, Check};
use rows::{lower, raise, touches};
use search::{list, next_in};
use sets::is_odd;

// Whether check `c` contains an odd number of the ones, which are in the first `used` words: so many, or a few more, are known beforehand.
fn odd_in(words: &[u64], used: usize, c: Check, ones: &[u64]) -> bool
    requires { (length words.now ≡ 4096) × (c.0 < 512) × (length ones.now ≡ 8) × (used ≤ 8) × Short (used * 64) (lent 8 ones.now 0) }
    ensures { result ≡ odd (inside (lent 8 words.now) 512 c.0 (lent 8 ones.now 0)) }
{
    if used <= 1 {
        return is_odd(words, 1, c, ones);
    }
    if used == 2 {
        return is_odd(words, 2, c, ones);
    }
    if used <= 4 {
        return is_odd(words, 4, c, ones);
    }
    is_odd(words, 8, c, ones)
}

// Bit `b`, the one erased bit of check `c`, becomes the sum modulo 2 of the check's ones.
fn solve(words: &[u64], used: usize, c: Check, b: Bit, erased: &mut [u64], ones: &mut [u64])
    requires { (length words.now ≡ 4096) × (c.0 < 512) × (b.0 < 512) × (length erased.old ≡ 8) × (length ones.old ≡ 8) × (used ≤ 8) × Short (used * 64) (lent 8 ones.old 0) }
    ensures { Solved (lent 8 words.now) 512 c.0 b.0 (lent 8 erased.old 0) (lent 8 ones.old 0) (lent 8 erased.new 0) (lent 8 ones.new 0) }
{
    let odd = odd_in(words, used, c, ones);
    lower(erased, 8, 0, b.0);
    if odd {
        raise(ones, 8, 0, b.0);
    }
}

// Solves checks as long as one of those listed, the first `checks`, has exactly one erased bit; these and the ones are in the first `used` words. The search resumes behind the check found,
// and ends after a pass over the list that found none.
fn solve_all(
    words: &[u64],
    used: usize,
    checks: usize,
    live: &mut [u16],
    erased: &mut [u64],
    ones: &mut [u64],
)
    requires { (length words.now ≡ 4096) × (checks ≤ 512) × (length live.old ≡ 512) × (length erased.old ≡ 8) × (length ones.old ≡ 8) × (used ≤ 8) × Short (used * 64) (lent 8 erased.old 0) × Short (used * 64) (lent 8 ones.old 0) × Listed checks live.old }
    ensures { Settled (lent 8 words.now) 512 checks (lent 8 erased.old 0) (lent 8 ones.old 0) (lent 8 erased.new 0) (lent 8 ones.new 0) }
{
    let mut count = checks;
    let mut from: usize = 0;
    let mut kept: usize = 0;
    loop {
        let next = next_in(words, used, checks, live, count, from, kept, erased);
        match next.alone {
            Some(alone) => {
                solve(words, used, alone.check, alone.bit, erased, ones);
                from = alone.place + 1;
                kept = next.kept;
            }
            None => {
                if from == 0 {
                    break;
                }
                count = next.kept;
                from = 0;
                kept = 0;
            }
        }
    }
}

// The same: nothing is searched where nothing is erased.
pub fn settle(words: &[u64], used: usize, checks: usize, erased: &mut [u64], ones: &mut [u64])
    requires { (length words.now ≡ 4096) × (checks ≤ 512) × (length erased.old ≡ 8) × (length ones.old ≡ 8) × (used ≤ 8) × Short (used * 64) (lent 8 erased.old 0) × Short (used * 64) (lent 8 ones.old 0) }
    ensures { Settled (lent 8 words.now) 512 checks (lent 8 erased.old 0) (lent 8 ones.old 0) (lent 8 erased.new 0) (lent 8 ones.new 0) }
{
    if touches(erased, 0, erased, 0, 8, 8) {
        let mut live = [0u16; 512];
        list(checks, &mut live);
        solve_all(words, used, checks, &mut live, erased, ones);
    }
}
