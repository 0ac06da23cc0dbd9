// The lowest and the highest check that two columns have in common. A column is a row of `width` words.
ghost use Rattle.std.specs.Prelude.{◌≡◌, ◌+◌, ◌*◌, ◌^◌, ◌≤◌, ◌<◌, length};
ghost use Rattle.parity.specs.Finite.{first, outermost};
ghost use Rattle.parity.specs.Causes.{held_values};
ghost use Rattle.rows.specs.Zeros.{both};
ghost use Rattle.pairs.specs.Rows.{in_both, last};

use parity::{Check, Holders};

// What word `p` of row `i` of `a` and word `p` of row `j` of `b` have in common.
fn both_at(a: &[u64], i: usize, b: &[u64], j: usize, width: usize, p: usize) -> u64
    requires { (i * width + width ≤ length a.now) × (j * width + width ≤ length b.now) × (p < width) }
    ensures { (result ≡ both width a.now i b.now j p) × (result < 2 ^ 64) }
{
    a[i * width + p] & b[j * width + p]
}

// The lowest bit that row `i` of `a` and row `j` of `b` have in common.
fn lowest(a: &[u64], i: usize, b: &[u64], j: usize, width: usize) -> Option<usize>
    requires { (i * width + width ≤ length a.now) × (j * width + width ≤ length b.now) × (width ≤ 8) }
    ensures { result ≡ first (width * 64) (in_both width a.now i b.now j) }
{
    for p in 0..width {
        let x = both_at(a, i, b, j, width, p);
        if x != 0 {
            return Some(p * 64 + x.trailing_zeros() as usize);
        }
    }
    None
}

// The highest bit that they have in common.
fn highest(a: &[u64], i: usize, b: &[u64], j: usize, width: usize) -> Option<usize>
    requires { (i * width + width ≤ length a.now) × (j * width + width ≤ length b.now) × (width ≤ 8) }
    ensures { result ≡ last (width * 64) (in_both width a.now i b.now j) }
{
    for p in (0..width).rev() {
        let x = both_at(a, i, b, j, width, p);
        if x != 0 {
            return Some(p * 64 + 63 - x.leading_zeros() as usize);
        }
    }
    None
}

// The lowest and the highest check that they have in common, or none of either.
pub fn holders(a: &[u64], i: usize, b: &[u64], j: usize, width: usize) -> Option<Holders>
    requires { (i * width + width ≤ length a.now) × (j * width + width ≤ length b.now) × (0 < width) × (width ≤ 8) }
    ensures { held_values result ≡ outermost (width * 64) (in_both width a.now i b.now j) }
{
    let low = Check(lowest(a, i, b, j, width)?);
    let high = Check(highest(a, i, b, j, width)?);
    Some(Holders { low, high })
}
