// Acceptance of a lent matrix, by causes 1 to 4.
#![tactic(auto)]

mod outside;
pub mod rule;

ghost use Rattle.std.specs.Prelude.{◌≡◌};
ghost use Rattle.parity.specs.Matrix.{in_range};
ghost use Rattle.parity.specs.Causes.{result_reply, no_values};
ghost use Rattle.parity.specs.Calls.{accept_reply};

use crate::outside::is_clean;
use crate::rule::rule_a;
use parity::Refusal;

// Whether n, m and k are within their ranges.
fn in_range(n: usize, m: usize, k: usize) -> bool
    ensures { result ≡ in_range n m k }
{
    1 <= n && n <= 120 && m <= 120 && k <= 392
}

// Accepts a lent matrix, or refuses it by the first of causes 1 to 4 that holds.
pub fn accept(words: &[u64], n: usize, m: usize, k: usize) -> Result<(), Refusal>
    ensures { result_reply no_values result ≡ accept_reply words.now n m k }
{
    if words.len() != 4096 {
        return Err(Refusal::MatrixLength);
    }
    if !in_range(n, m, k) {
        return Err(Refusal::OutOfRange);
    }
    if !is_clean(words, n + k, m + k) {
        return Err(Refusal::OneOutside);
    }
    if !rule_a(words, n, m, k) {
        return Err(Refusal::RuleABroken);
    }
    Ok(())
}
