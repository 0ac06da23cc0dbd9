// Which bits hold a message, and the message put there.
#![tactic(auto)]

pub mod message;

ghost use Rattle.std.specs.Prelude.{◌≡◌, ◌≤◌, length, replicate};
ghost use Rattle.parity.specs.Causes.{result_reply, no_values};
ghost use Rattle.parity.specs.MessageBits.{message_bits_outcome};
ghost use Rattle.message_bits.specs.Answers.{marks};

use crate::message::place;
use parity::Refusal;
use rank::eliminate;

// The longest message, all ones.
fn all_ones() -> [u8; 120]
    ensures { result ≡ replicate 120 1 }
{
    [1u8; 120]
}

// Marks the bits of the given checks that hold a message: a message of ones is placed.
fn mark(words: &[u64], m: usize, set: &mut [u8])
    requires { (length words.now ≡ 4096) × (m ≤ 120) × (length set.old ≤ 120) }
    ensures { set.new ≡ marks words.now (length set.old) m }
{
    let mut rows = [0u64; 240];
    let mut pivots = [0usize; 120];
    let n = set.len();
    let r = eliminate(words, n, m, &mut rows, &mut pivots);
    let message = all_ones();
    place(&pivots[..r], &message[..n - r], set);
}

// Marks the bits that hold a message with 1, and the parity bits with 0.
pub fn message_bits(
    words: &[u64],
    n: usize,
    m: usize,
    k: usize,
    set: &mut [u8],
) -> Result<(), Refusal>
    ensures result_value { result_reply no_values result ≡ (message_bits_outcome words.now n m k set.old).reply }
    ensures set_after { set.new ≡ (message_bits_outcome words.now n m k set.old).after }
{
    matrix::accept(words, n, m, k)?;
    if k != 0 {
        return Err(Refusal::AddedBits);
    }
    if set.len() != n {
        return Err(Refusal::WrongLength);
    }
    mark(words, m, set);
    Ok(())
}
