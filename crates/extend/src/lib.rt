// Extending: the word of the sent bits, in which each added check is even.
#![tactic(auto)]

mod added;

ghost use Rattle.std.specs.Prelude.{◌≡◌};
ghost use Rattle.parity.specs.Causes.{result_reply, no_values};
ghost use Rattle.parity.specs.Calls.{extend_outcome};

use crate::added::write_word;
use parity::Refusal;
use sets::bytes::first_above;

// Extends the `n` sent bits to the `n + k` bits of the word.
pub fn extend(
    words: &[u64],
    n: usize,
    m: usize,
    k: usize,
    sent: &[u8],
    word: &mut [u8],
) -> Result<(), Refusal>
    ensures { (result_reply no_values result ≡ (extend_outcome words.now n m k sent.now word.old).reply)
        × (word.new ≡ (extend_outcome words.now n m k sent.now word.old).after) }
{
    matrix::accept(words, n, m, k)?;
    if word.len() != n + k {
        return Err(Refusal::WrongLength);
    }
    if sent.len() != n {
        return Err(Refusal::WrongLength);
    }
    match first_above(sent, 1) {
        Some(place) => Err(Refusal::WrongByte { place }),
        None => {
            write_word(words, n, m, k, sent, word);
            Ok(())
        }
    }
}
