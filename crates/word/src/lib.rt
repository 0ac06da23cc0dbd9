// Words and sets of bits, one byte for each bit: verifying, and testing stopping sets.
#![tactic(auto)]

ghost use Rattle.std.specs.Prelude.{◌≡◌, ◌*◌, ◌<◌, ◌≤◌, length};
ghost use Rattle.parity.specs.Matrix.{lent};
ghost use Rattle.parity.specs.Words.{is_one, even_checks, codeword, stopping};
ghost use Rattle.parity.specs.Causes.{result_reply, no_values, yes_values};
ghost use Rattle.parity.specs.Calls.{byte_of, verify_reply, is_stopping_reply};
ghost use Rattle.word.specs.Answers.{admit_reply};
ghost use Rattle.word.specs.Asked.{AllAsked};

use parity::{Check, Refusal};
use rows::{with_known, words_of};
use sets::bytes::first_above;
use sets::{is_odd, is_single, set_of};

// Accepts a matrix and takes its n + k bytes, none above `top`, or refuses by the first of causes 1 to 4, 10 and 11 that holds.
pub fn admit(
    words: &[u64],
    n: usize,
    m: usize,
    k: usize,
    bytes: &[u8],
    top: u8,
) -> Result<(), Refusal>
    ensures { result_reply no_values result ≡ admit_reply words.now n m k bytes.now top }
{
    matrix::accept(words, n, m, k)?;
    if bytes.len() != n + k {
        return Err(Refusal::WrongLength);
    }
    match first_above(bytes, top) {
        Some(place) => Err(Refusal::WrongByte { place }),
        None => Ok(()),
    }
}

// Whether each of the first `checks` checks contains an even number of the set's bits in its first `used` words.
fn all_even(words: &[u64], used: usize, checks: usize, set: &[u64]) -> bool
    requires { AllAsked words.now checks set.now used }
    ensures { result ≡ even_checks (lent 8 words.now) (used * 64) checks (lent 8 set.now 0) }
{
    (0..checks).all(|c| !is_odd(words, used, Check(c), set))
}

// Whether the bytes are a codeword of the first `checks` checks.
fn is_codeword(words: &[u64], checks: usize, bytes: &[u8]) -> bool
    requires { (length words.now ≡ 4096) × (checks ≤ 512) × (length bytes.now ≤ 512) }
    ensures { result ≡ codeword (lent 8 words.now) (length bytes.now) checks (byte_of bytes.now) }
{
    if first_above(bytes, 1).is_some() {
        return false;
    }
    let ones = set_of(bytes, 1);
    with_known(
        words_of(bytes.len()),
        |used| all_even(words, used, checks, &ones),
    )
}

// Verifies a word: yes exactly for codewords.
pub fn verify(words: &[u64], n: usize, m: usize, k: usize, word: &[u8]) -> Result<bool, Refusal>
    ensures { result_reply yes_values result ≡ verify_reply words.now n m k word.now }
{
    admit(words, n, m, k, word, 2)?;
    Ok(is_codeword(words, m + k, word))
}

// Whether none of the first `checks` checks contains exactly one of the set's bits in its first `used` words.
fn none_single(words: &[u64], used: usize, checks: usize, set: &[u64]) -> bool
    requires { AllAsked words.now checks set.now used }
    ensures { result ≡ stopping (lent 8 words.now) (used * 64) checks (lent 8 set.now 0) }
{
    (0..checks).all(|d| !is_single(words, used, Check(d), set))
}

// Whether the ones of the bytes are a stopping set of the first `checks` checks.
fn stops(words: &[u64], checks: usize, bytes: &[u8]) -> bool
    requires { (length words.now ≡ 4096) × (checks ≤ 512) × (length bytes.now ≤ 512) }
    ensures { result ≡ stopping (lent 8 words.now) (length bytes.now) checks (is_one (byte_of bytes.now)) }
{
    let set = set_of(bytes, 1);
    with_known(
        words_of(bytes.len()),
        |used| none_single(words, used, checks, &set),
    )
}

// Tests a set of bits, given as bytes of 0 or 1: yes exactly for stopping sets.
pub fn is_stopping(words: &[u64], n: usize, m: usize, k: usize, set: &[u8]) -> Result<bool, Refusal>
    ensures { result_reply yes_values result ≡ is_stopping_reply words.now n m k set.now }
{
    admit(words, n, m, k, set, 1)?;
    Ok(stops(words, m + k, set))
}
