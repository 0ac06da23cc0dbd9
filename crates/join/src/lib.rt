// Two matrices over the same n bits, joined into the words of a third.
#![tactic(auto)]

mod gather;

ghost use Rattle.std.specs.Prelude.{◌≡◌, []};
ghost use Rattle.parity.specs.Causes.{answer, result_reply, no_values, number_values};
ghost use Rattle.parity.specs.Calls.{accepting_both, join_outcome};
ghost use Rattle.join.specs.Causes.{lower};

use crate::gather::{gather, write};
use matrix::accept;
use parity::Refusal;
use refusals::number;

// Two answers of acceptance as one: the refusal of the lower cause, if either is one.
fn lower(first: Result<(), Refusal>, second: Result<(), Refusal>) -> Result<(), Refusal>
    ensures { result ≡ lower first second }
{
    match (first, second) {
        (Ok(()), _) => second,
        (_, Ok(())) => first,
        (Err(a), Err(b)) => if number(b) < number(a) { second } else { first },
    }
}

// Whether two matrices are accepted, each cause over both before the next, have k = 0 and the same n.
fn admit(
    words1: &[u64],
    n1: usize,
    m1: usize,
    k1: usize,
    words2: &[u64],
    n2: usize,
    m2: usize,
    k2: usize,
) -> Result<(), Refusal>
    ensures { result_reply no_values result ≡ accepting_both words1.now n1 m1 k1 words2.now n2 m2 k2 (answer []) }
{
    lower(accept(words1, n1, m1, k1), accept(words2, n2, m2, k2))?;
    if 0 < k1 {
        return Err(Refusal::AddedBits);
    }
    if 0 < k2 {
        return Err(Refusal::AddedBits);
    }
    if n1 != n2 {
        return Err(Refusal::DifferentLengths);
    }
    Ok(())
}

// Joins two matrices with k = 0 into all words of a third: the first's checks, then those of the second that equal no earlier check, in order.
pub fn join(
    words1: &[u64],
    n1: usize,
    m1: usize,
    k1: usize,
    words2: &[u64],
    n2: usize,
    m2: usize,
    k2: usize,
    words3: &mut [u64],
) -> Result<usize, Refusal>
    ensures result_value { result_reply number_values result ≡ (join_outcome words1.now n1 m1 k1 words2.now n2 m2 k2 words3.old).reply }
    ensures words3_after { words3.new ≡ (join_outcome words1.now n1 m1 k1 words2.now n2 m2 k2 words3.old).after }
{
    if words3.len() != 4096 {
        return Err(Refusal::MatrixLength);
    }
    admit(words1, n1, m1, k1, words2, n2, m2, k2)?;
    let mut rows = [0u64; 240];
    match gather(words1, m1, words2, m2, &mut rows) {
        None => Err(Refusal::TooManyChecks),
        Some(checks) => {
            write(&rows, checks, words3);
            Ok(checks)
        }
    }
}
