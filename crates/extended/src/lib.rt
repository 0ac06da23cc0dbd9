// Peeling with the orthogonalised copy of a matrix.
#![tactic(auto)]

ghost use Rattle.std.specs.Prelude.{◌≡◌, false, ◌++◌, ◌+◌, ◌≤◌, eqb, length, take, drop};
ghost use Rattle.parity.specs.Matrix.{cause};
ghost use Rattle.parity.specs.Calls.{wrong_byte, peel_outcome};
ghost use Rattle.parity.specs.Block.{copy_made};
ghost use Rattle.parity.specs.Causes.{result_reply};
ghost use Rattle.extended.specs.Answers.{Longer, copy_peeled_values, no_room, copy_peeling_reply, in_all, copy_reply, copy_word};

use orthogonalise::orthogonalise_accepted;
use parity::Refusal;
use peel::peel_admitted;

// What peeling with the orthogonalised copy answers: how many bits were recovered and how many are left, sent and added ones together.
#[derive(Clone, Copy, Debug, PartialEq, Eq)]
pub struct CopyPeeled {
    pub recovered: u64,
    pub left: u64,
}

// Peels the first n + k bytes.
fn peel_front(
    words: &[u64],
    n: usize,
    m: usize,
    k: usize,
    longer: &mut [u8],
) -> Result<CopyPeeled, Refusal>
    requires { (cause words.now n m k ≡ 0) × (n + k ≤ length longer.old) × (wrong_byte 2 (take (n + k) longer.old) ≡ false) }
    ensures result_value { result_reply copy_peeled_values result ≡ in_all (peel_outcome words.now n m k (take (n + k) longer.old)).reply }
    ensures longer_after { longer.new ≡ (peel_outcome words.now n m k (take (n + k) longer.old)).after ++ drop (n + k) longer.old }
{
    let losses = peel_admitted(words, n, m, k, &mut longer[..n + k])?;
    Ok(CopyPeeled {
        recovered: losses.recovered_sent + losses.recovered_added,
        left: losses.left_sent + losses.left_added,
    })
}

// Orthogonalises a copy of an accepted matrix with k = 0, and peels with it the received word that is at the front of `longer`, with bytes of 2 behind
// it. The copy is on the stack here, and not while the matrix is accepted or eliminated: so this is a crate of its own, whose function the compiler
// leaves by itself. The answer is none if orthogonalising was refused 9.
pub fn peel_extended(
    words: &[u64],
    n: usize,
    m: usize,
    longer: &mut [u8],
) -> Result<Option<CopyPeeled>, Refusal>
    requires { (cause words.now n m 0 ≡ 0) × Longer n longer.old }
    ensures result_value { no_room result ≡ eqb (copy_made words.now n m).reply.number 9 }
    ensures result_value_2 { copy_peeling_reply result ≡ copy_reply words.now n m (take n longer.old) }
    ensures longer_after { take n longer.new ≡ copy_word words.now n m (take n longer.old) }
{
    let mut own = [0u64; 4096];
    own.copy_from_slice(words);
    match orthogonalise_accepted(&mut own, n, m, 0) {
        Err(_) => Ok(None),
        Ok(made) => Ok(Some(peel_front(&own, n, m, made.k, longer)?)),
    }
}
