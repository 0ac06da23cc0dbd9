// Everything the checks determine: each bit at which all codewords that agree with a word have one value.
#![tactic(auto)]

ghost use Rattle.std.specs.Prelude.{◌≡◌, false, ◌+◌, ◌≤◌, ◌<◌, length};
ghost use Rattle.parity.specs.Matrix.{lent, cause};
ghost use Rattle.parity.specs.Causes.{result_reply, loss_values};
ghost use Rattle.parity.specs.Calls.{wrong_byte, determine_outcome};
ghost use Rattle.determine.specs.Answers.{word_outcome};

use parity::{Losses, Refusal};
use residue::finish;
use rows::words_of;
use sets::losses::losses_of;
use sets::pairs::make_sets;
use steps::settle;
use word::admit;

// Determines a word of bytes up to 2, of `n` sent and `k` added bits: it is peeled, and what peeling leaves is solved by elimination.
fn determine_word(
    words: &[u64],
    n: usize,
    k: usize,
    checks: usize,
    word: &mut [u8],
) -> Result<Losses, Refusal>
    requires { (length words.now ≡ 4096) × (checks ≤ 512) × (length word.old ≡ n + k) × (n + k ≤ 512) × (n < 512) × (wrong_byte 2 word.old ≡ false) }
    ensures result_value { result_reply loss_values result ≡ (word_outcome (lent 8 words.now) n k checks word.old).reply }
    ensures word_after { word.new ≡ (word_outcome (lent 8 words.now) n k checks word.old).after }
{
    let mut lost = [0u64; 8];
    let mut ones = [0u64; 8];
    make_sets(word, &mut lost, &mut ones);
    let mut erased = lost;
    let bits = n + k;
    settle(words, words_of(bits), checks, &mut erased, &mut ones);
    let residue = erased;
    let known = ones;
    if !finish(
        words,
        bits,
        checks,
        word,
        &lost,
        &residue,
        &known,
        &mut erased,
        &mut ones,
    ) {
        return Err(Refusal::Contradiction);
    }
    Ok(losses_of(&lost, &erased, n))
}

// Determines a word that no cause before 12 refuses.
pub fn determine_admitted(
    words: &[u64],
    n: usize,
    m: usize,
    k: usize,
    word: &mut [u8],
) -> Result<Losses, Refusal>
    requires { (cause words.now n m k ≡ 0) × (length word.old ≡ n + k) × (wrong_byte 2 word.old ≡ false) }
    ensures result_value { result_reply loss_values result ≡ (determine_outcome words.now n m k word.old).reply }
    ensures word_after { word.new ≡ (determine_outcome words.now n m k word.old).after }
{
    determine_word(words, n, k, m + k, word)
}

// Determines a word: each bit at which all codewords that agree with it have one value gets this value, and the others keep 2.
pub fn determine(
    words: &[u64],
    n: usize,
    m: usize,
    k: usize,
    word: &mut [u8],
) -> Result<Losses, Refusal>
    ensures result_value { result_reply loss_values result ≡ (determine_outcome words.now n m k word.old).reply }
    ensures word_after { word.new ≡ (determine_outcome words.now n m k word.old).after }
{
    admit(words, n, m, k, word, 2)?;
    determine_admitted(words, n, m, k, word)
}
