// Peeling: what the checks with exactly one erased bit recover of a word.
#![tactic(auto)]

ghost use Rattle.std.specs.Prelude.{◌≡◌, false, ◌+◌, ◌≤◌, ◌<◌, length};
ghost use Rattle.parity.specs.Matrix.{lent, cause};
ghost use Rattle.parity.specs.Causes.{result_reply, loss_values};
ghost use Rattle.parity.specs.Calls.{wrong_byte, peel_outcome};
ghost use Rattle.peel.specs.Answers.{word_outcome};

use parity::{Losses, Refusal};
use result::finish;
use rows::words_of;
use sets::losses::losses_of;
use sets::pairs::make_sets;
use steps::settle;
use word::admit;

// Peels a word of bytes up to 2, of `n` sent and `k` added bits.
fn peel_word(
    words: &[u64],
    n: usize,
    k: usize,
    checks: usize,
    word: &mut [u8],
) -> Result<Losses, Refusal>
    requires { (length words.now ≡ 4096) × (checks ≤ 512) × (length word.old ≡ n + k) × (n + k ≤ 512) × (n < 512) × (wrong_byte 2 word.old ≡ false) }
    ensures result_value { result_reply loss_values result ≡ (word_outcome (lent 8 words.now) n k checks word.old).reply }
    ensures word_after { word.new ≡ (word_outcome (lent 8 words.now) n k checks word.old).after }
{
    let mut lost = [0u64; 8];
    let mut ones = [0u64; 8];
    make_sets(word, &mut lost, &mut ones);
    let mut erased = lost;
    let used = words_of(n + k);
    settle(words, used, checks, &mut erased, &mut ones);
    if !finish(words, used, checks, word, &lost, &erased, &ones) {
        return Err(Refusal::Contradiction);
    }
    Ok(losses_of(&lost, &erased, n))
}

// Peels a word that no cause before 12 refuses.
pub fn peel_admitted(
    words: &[u64],
    n: usize,
    m: usize,
    k: usize,
    word: &mut [u8],
) -> Result<Losses, Refusal>
    requires { (cause words.now n m k ≡ 0) × (length word.old ≡ n + k) × (wrong_byte 2 word.old ≡ false) }
    ensures result_value { result_reply loss_values result ≡ (peel_outcome words.now n m k word.old).reply }
    ensures word_after { word.new ≡ (peel_outcome words.now n m k word.old).after }
{
    peel_word(words, n, k, m + k, word)
}

// Peels a word: each bit that checks with exactly one erased bit lead to is recovered, and the residue keeps 2.
pub fn peel(words: &[u64], n: usize, m: usize, k: usize, word: &mut [u8]) -> Result<Losses, Refusal>
    ensures result_value { result_reply loss_values result ≡ (peel_outcome words.now n m k word.old).reply }
    ensures word_after { word.new ≡ (peel_outcome words.now n m k word.old).after }
{
    admit(words, n, m, k, word, 2)?;
    peel_admitted(words, n, m, k, word)
}
