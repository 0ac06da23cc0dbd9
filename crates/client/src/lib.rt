// A client, proved from the contracts of the calls and what is promised of their definitions: what a receiver may rely on that peels a word with a given
// matrix and with its orthogonalised copy. It shows by machine that a call's contract, the definition that it cites and the theorem about the definition
// (demand 3) fit together. No call uses it.
#![tactic(auto)]

ghost use Rattle.std.specs.Prelude.{◌≡◌, ◌++◌, ◌+◌, ◌≤◌, eqb, length, take, drop, replicate};
ghost use Rattle.parity.specs.Matrix.{cause};
ghost use Rattle.parity.specs.Calls.{peel_outcome};
ghost use Rattle.client.specs.Relied.{ReliesOn};

use orthogonalise::orthogonalise;
use peel::peel;
use rows::whole::copy_words;

// Peels the first n + k bytes, and says whether peeling answers.
fn peel_front(words: &[u64], n: usize, m: usize, k: usize, bytes: &mut [u8]) -> bool
    requires { (n + k ≤ length bytes.old) × (n + k ≤ 512) }
    ensures value { result ≡ eqb (peel_outcome words.now n m k (take (n + k) bytes.old)).reply.number 0 }
    ensures bytes_after { bytes.new ≡ (peel_outcome words.now n m k (take (n + k) bytes.old)).after ++ drop (n + k) bytes.old }
{
    peel(words, n, m, k, &mut bytes[..n + k]).is_ok()
}

// Peels the received word with the given matrix in `given`, and with its orthogonalised copy, made in `own`, in `longer`, where 392 erased bits stand
// behind it. If there is no room for all splits, it peels with the given matrix there too. Whether both answer.
pub fn peel_both(
    words: &[u64],
    n: usize,
    m: usize,
    own: &mut [u64],
    given: &mut [u8],
    longer: &mut [u8],
) -> bool
    requires { (cause words.now n m 0 ≡ 0) × (length own.old ≡ 4096) × (length given.old ≡ n) × (longer.old ≡ given.old ++ replicate 392 2) }
    ensures { ReliesOn words.now n m given.old result given.new longer.new }
{
    copy_words(words, 0, own, 0, 4096);
    if !peel_front(words, n, m, 0, given) {
        return false;
    }
    match orthogonalise(own, n, m, 0) {
        Err(_) => peel_front(words, n, m, 0, longer),
        Ok(made) => peel_front(own, n, m, made.k, longer),
    }
}
