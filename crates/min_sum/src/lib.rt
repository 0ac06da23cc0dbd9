// Soft bits: min-sum rounds on a word of sure, soft and erased bits.
#![tactic(auto)]

mod judge;
mod rounds;

ghost use Rattle.std.specs.Prelude.{◌≡◌, ◌≤◌, length};
ghost use Rattle.parity.specs.Causes.{result_reply, no_values};
ghost use Rattle.parity.specs.Matrix.{lent};
ghost use Rattle.parity.specs.Soft.{message_at, result_after};
ghost use Rattle.parity.specs.SoftCall.{min_sum_outcome};
ghost use Rattle.soft.specs.Store.{Holding};
ghost use Rattle.min_sum.specs.Answers.{Results};
ghost use Rattle.min_sum.specs.Rounds.{Ready};

use crate::judge::judge;
use crate::rounds::run;
use columns::fill;
use parity::Refusal;

// Runs the rounds, with the columns of the matrix: the results replace the input.
fn by_columns(
    words: &[u64],
    checks: usize,
    rounds: usize,
    word: &mut [u8],
    floats: &mut [f32],
    tags: &mut [u8],
    values: &mut [f32],
)
    requires { Ready words.now checks word.old floats.old tags.old values.old × (1 ≤ rounds) }
    ensures { Holding (length word.old) (result_after (lent 8 words.now) 512 checks (message_at word.old floats.old) rounds) word.new floats.new }
{
    let mut cols = [0u64; 4096];
    fill(words, &mut cols, 8, checks);
    let mut at = [0usize; 512];
    run(
        words, &cols, checks, rounds, word, floats, &mut at, tags, values,
    );
}

// Runs the rounds, and leaves the messages zero. `by_columns` is called at two places that the compiler cannot join, so that it leaves it a function of
// its own: its columns are then on the stack while they are used, and not while the matrix is accepted.
fn results(
    words: &[u64],
    checks: usize,
    rounds: usize,
    word: &mut [u8],
    floats: &mut [f32],
    tags: &mut [u8],
    values: &mut [f32],
)
    requires { Ready words.now checks word.old floats.old tags.old values.old × (1 ≤ rounds) }
    ensures { Results (length word.old) (result_after (lent 8 words.now) 512 checks (message_at word.old floats.old) rounds) word.new floats.new tags.new values.new }
{
    let bits = word.len();
    if bits == checks {
        by_columns(words, bits, rounds, word, floats, tags, values);
        values.fill(0.0);
        tags.fill(0);
        return;
    }
    by_columns(words, checks, rounds, word, floats, tags, values);
    tags.fill(0);
    values.fill(0.0);
}

// Decodes a word of sure, soft and erased bits by min-sum rounds: each bit's result replaces its channel value.
pub fn min_sum(
    words: &[u64],
    n: usize,
    m: usize,
    k: usize,
    rounds: usize,
    word: &mut [u8],
    floats: &mut [f32],
    message_bytes: &mut [u8],
    message_floats: &mut [f32],
) -> Result<(), Refusal>
    ensures result_value { result_reply no_values result ≡ (min_sum_outcome words.now n m k rounds word.old floats.old message_bytes.old message_floats.old).reply }
    ensures word_after { word.new ≡ (min_sum_outcome words.now n m k rounds word.old floats.old message_bytes.old message_floats.old).word }
    ensures floats_after { floats.new ≡ (min_sum_outcome words.now n m k rounds word.old floats.old message_bytes.old message_floats.old).floats }
    ensures message_bytes_after { message_bytes.new ≡ (min_sum_outcome words.now n m k rounds word.old floats.old message_bytes.old message_floats.old).bytes_of_messages }
    ensures message_floats_after { message_floats.new ≡ (min_sum_outcome words.now n m k rounds word.old floats.old message_bytes.old message_floats.old).floats_of_messages }
{
    matrix::accept(words, n, m, k)?;
    judge(n + k, rounds, word, floats, message_bytes, message_floats)?;
    results(
        words,
        m + k,
        rounds,
        word,
        floats,
        message_bytes,
        message_floats,
    );
    Ok(())
}
