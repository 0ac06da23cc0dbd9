// The stopping sets of a few sent bits.
#![tactic(auto)]

ghost use Rattle.std.specs.Prelude.{◌≡◌, not, ◌*◌, ◌≤◌};
ghost use Rattle.parity.specs.Causes.{result_reply, number_values};
ghost use Rattle.parity.specs.Calls.{wrong_size, stopping_sets_outcome};

use columns::first_columns;
use enumeration::listing::list_all;
use parity::Refusal;
use rows::words_of;

// Whether sets of `t` bits can be asked for.
fn is_size(t: usize) -> bool
    ensures { result ≡ not (wrong_size t) }
{
    (1..=4).contains(&t)
}

// How many words `checks` checks take, or one.
fn words_used(checks: usize) -> usize
    requires { checks ≤ 512 }
    ensures { (checks ≤ result * 64) × (1 ≤ result) × (result ≤ 8) }
{
    words_of(checks).max(1)
}

// Lists every stopping set of exactly `t` sent bits in the first places of `sets`. They are counted first, so that a refusal leaves everything, and where there
// are none, they are not sought again.
pub fn list(
    words: &[u64],
    n: usize,
    m: usize,
    k: usize,
    t: usize,
    sets: &mut [u16],
) -> Result<usize, Refusal>
    ensures result_value { result_reply number_values result ≡ (stopping_sets_outcome words.now n m k t sets.old).reply }
    ensures sets_after { sets.new ≡ (stopping_sets_outcome words.now n m k t sets.old).after }
{
    matrix::accept(words, n, m, k)?;
    if !is_size(t) {
        return Err(Refusal::WrongSize);
    }
    let cols = first_columns(words, m + k);
    let used = words_used(m + k);
    let needed = list_all(&cols, n, used, t, sets, false);
    if sets.len() < needed {
        return Err(Refusal::SetsTooShort { needed });
    }
    if needed == 0 {
        return Ok(0);
    }
    list_all(&cols, n, used, t, sets, true);
    Ok(needed / t)
}
