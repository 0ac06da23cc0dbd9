// The rank of a matrix with k = 0, and the elimination that tells it.
#![tactic(auto)]

ghost use Rattle.std.specs.Prelude.{◌≡◌, ◌≤◌, length};
ghost use Rattle.parity.specs.Matrix.{lent};
ghost use Rattle.parity.specs.Encoding.{rank_of};
ghost use Rattle.parity.specs.Causes.{result_reply, number_values};
ghost use Rattle.parity.specs.Calls.{rank_reply};
ghost use Rattle.elimination.specs.Reduction.{Echelon};

use elimination::to_echelon;
use parity::Refusal;
use rows::whole::copy_rows;

// The given checks become rows of two words, in echelon form. The answer is the number of pivots, which stand in `pivots`.
pub fn eliminate(words: &[u64], n: usize, m: usize, rows: &mut [u64], pivots: &mut [usize]) -> usize
    requires { (length words.now ≡ 4096) × (n ≤ 120) × (m ≤ 120) × (length rows.old ≡ 240) × (length pivots.old ≡ 120) }
    ensures { Echelon (lent 8 words.now) (lent 2 rows.new) n m n result pivots.new }
{
    copy_rows(words, 8, 2, m, rows);
    to_echelon(rows, m, n, pivots)
}

// The rank of the given checks.
fn rank_of(words: &[u64], n: usize, m: usize) -> u64
    requires { (length words.now ≡ 4096) × (n ≤ 120) × (m ≤ 120) }
    ensures { result ≡ rank_of (lent 8 words.now) n m }
{
    let mut rows = [0u64; 240];
    let mut pivots = [0usize; 120];
    let r = eliminate(words, n, m, &mut rows, &mut pivots);
    r as u64
}

// Answers the rank: the number of parity bits.
pub fn rank(words: &[u64], n: usize, m: usize, k: usize) -> Result<u64, Refusal>
    ensures { result_reply number_values result ≡ rank_reply words.now n m k }
{
    matrix::accept(words, n, m, k)?;
    if k != 0 {
        return Err(Refusal::AddedBits);
    }
    Ok(rank_of(words, n, m))
}
