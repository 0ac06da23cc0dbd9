// Encoding with k = 0: the codeword whose bits that are no parity bits hold a message.
#![tactic(auto)]

mod fill;

ghost use Rattle.std.specs.Prelude.{◌≡◌, ◌≤◌, length};
ghost use Rattle.parity.specs.Causes.{result_reply, no_values};
ghost use Rattle.parity.specs.Calls.{encode_outcome};
ghost use Rattle.encode.specs.Answers.{given_outcome};

use crate::fill::fill;
use message_bits::message::place;
use parity::Refusal;
use rank::eliminate;
use sets::bytes::first_above;

// Encoding with the given checks, for a word of the right length.
fn encode_given(words: &[u64], m: usize, message: &[u8], word: &mut [u8]) -> Result<(), Refusal>
    requires { (length words.now ≡ 4096) × (m ≤ 120) × (length word.old ≤ 120) }
    ensures result_value { result_reply no_values result ≡ (given_outcome words.now m message.now word.old).reply }
    ensures word_after { word.new ≡ (given_outcome words.now m message.now word.old).after }
{
    let mut rows = [0u64; 240];
    let mut pivots = [0usize; 120];
    let n = word.len();
    let r = eliminate(words, n, m, &mut rows, &mut pivots);
    if message.len() + r != n {
        return Err(Refusal::WrongLength);
    }
    match first_above(message, 1) {
        Some(place) => Err(Refusal::WrongByte { place }),
        None => {
            place(&pivots[..r], message, word);
            fill(&rows, &pivots[..r], word);
            Ok(())
        }
    }
}

// Writes the codeword of the message.
pub fn encode(
    words: &[u64],
    n: usize,
    m: usize,
    k: usize,
    message: &[u8],
    word: &mut [u8],
) -> Result<(), Refusal>
    ensures result_value { result_reply no_values result ≡ (encode_outcome words.now n m k message.now word.old).reply }
    ensures word_after { word.new ≡ (encode_outcome words.now n m k message.now word.old).after }
{
    matrix::accept(words, n, m, k)?;
    if k != 0 {
        return Err(Refusal::AddedBits);
    }
    if word.len() != n {
        return Err(Refusal::WrongLength);
    }
    encode_given(words, m, message, word)
}
