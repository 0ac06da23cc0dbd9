// The stages: loading, orthogonalising and peeling. Each puts the output from there on.
ghost use Rattle.std.specs.Prelude.{◌≡◌, ◌++◌, ◌+◌, ◌≤◌, length, replicate};
ghost use Rattle.parity.specs.Matrix.{cause};
ghost use Rattle.lines.specs.Placed.{Placed};
ghost use Rattle.receiver.specs.Stages.{peel_text, orthogonalise_text, load_text};

use lines::{put_refused, put_report};
use parity::Refusal;
use peel::peel_admitted;
use sets::bytes::{erased_behind, first_above};

// Peels a word of n + k bytes, if each is up to 2.
fn peel_word(
    out: &mut [u8],
    words: &[u64],
    n: usize,
    m: usize,
    k: usize,
    splits: u64,
    sum: u64,
    word: &mut [u8],
) -> usize
    requires word_in_bounds { length (peel_text words.now n m k splits sum word.old) ≤ length out.old }
    requires k_value { (cause words.now n m k ≡ 0) × (length word.old ≡ n + k) }
    ensures { Placed out.old 0 (peel_text words.now n m k splits sum word.old) out.new result }
{
    match first_above(word, 2) {
        Some(place) => put_refused(out, Refusal::WrongByte { place }),
        None => match peel_admitted(words, n, m, k, word) {
            Err(why) => put_refused(out, why),
            Ok(_) => put_report(out, splits, sum, word, n),
        },
    }
}

// Sets the added bits to 2 and peels.
fn peel_sent(
    out: &mut [u8],
    words: &[u64],
    n: usize,
    m: usize,
    k: usize,
    splits: u64,
    sum: u64,
    sent: &[u8],
) -> usize
    requires k_in_bounds { length (peel_text words.now n m k splits sum (sent.now ++ replicate k 2)) ≤ length out.old }
    requires k_value { cause words.now n m k ≡ 0 }
    ensures { Placed out.old 0 (peel_text words.now n m k splits sum (sent.now ++ replicate k 2)) out.new result }
{
    if sent.len() != n {
        return put_refused(out, Refusal::WrongLength);
    }
    let mut word = erased_behind(sent);
    peel_word(out, words, n, m, k, splits, sum, &mut word[..n + k])
}

// Orthogonalises the loaded matrix, which is accepted, from its k, `j`, on, and goes on.
fn orthogonalise(
    out: &mut [u8],
    words: &mut [u64],
    n: usize,
    m: usize,
    j: usize,
    sent: &[u8],
) -> usize
    requires sent_in_bounds { length (orthogonalise_text words.old n m j sent.now) ≤ length out.old }
    requires j_value { cause words.old n m j ≡ 0 }
    ensures { Placed out.old 0 (orthogonalise_text words.old n m j sent.now) out.new result }
{
    match orthogonalise::orthogonalise_accepted(words, n, m, j) {
        Err(why) => put_refused(out, why),
        Ok(o) => peel_sent(out, words, n, m, o.k, o.splits, o.sum, sent),
    }
}

// Loads the record, and goes on.
pub fn load(out: &mut [u8], source: &[u32], sent: &[u8]) -> usize
    requires { length (load_text source.now sent.now) ≤ length out.old }
    ensures { Placed out.old 0 (load_text source.now sent.now) out.new result }
{
    let mut words = [0u64; 4096];
    match record::load(source, &mut words) {
        Err(why) => put_refused(out, why),
        Ok(loaded) => orthogonalise(out, &mut words, loaded.n, loaded.m, loaded.k, sent),
    }
}
