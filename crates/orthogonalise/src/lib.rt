// Orthogonalising.
#![tactic(auto)]

mod course;

ghost use Rattle.std.specs.Prelude.{◌≡◌};
ghost use Rattle.parity.specs.Matrix.{cause};
ghost use Rattle.parity.specs.Causes.{result_reply};
ghost use Rattle.parity.specs.Calls.{orthogonalise_outcome};
ghost use Rattle.orthogonalise.specs.Answers.{orthogonalised_values};

use crate::course::repeat;
use matrix::accept;
use parity::{Holders, Refusal};

// What orthogonalising answers: the number of splits, the sum of s(s-1)/2 over them, k, and the lowest and the highest check that held the pair of the
// final split, none of either if there was none.
#[derive(Clone, Copy, Debug, PartialEq, Eq)]
pub struct Orthogonalised {
    pub splits: u64,
    pub sum: u64,
    pub k: usize,
    pub held: Option<Holders>,
}

// Orthogonalising an accepted matrix, such as one that was just loaded.
pub fn orthogonalise_accepted(
    words: &mut [u64],
    n: usize,
    m: usize,
    k: usize,
) -> Result<Orthogonalised, Refusal>
    requires { cause words.old n m k ≡ 0 }
    ensures result_value { result_reply orthogonalised_values result ≡ (orthogonalise_outcome words.old n m k).reply }
    ensures words_after { words.new ≡ (orthogonalise_outcome words.old n m k).after }
{
    repeat(words, n, m, k)
}

// Orthogonalising: repeats the split of the pair with the largest share, then the smallest lower bit, then the smallest higher bit,
// until no pair has share two or more. Refused by causes 1 to 4, and by 9 after the splits made.
pub fn orthogonalise(
    words: &mut [u64],
    n: usize,
    m: usize,
    k: usize,
) -> Result<Orthogonalised, Refusal>
    ensures result_value { result_reply orthogonalised_values result ≡ (orthogonalise_outcome words.old n m k).reply }
    ensures words_after { words.new ≡ (orthogonalise_outcome words.old n m k).after }
{
    accept(words, n, m, k)?;
    orthogonalise_accepted(words, n, m, k)
}
