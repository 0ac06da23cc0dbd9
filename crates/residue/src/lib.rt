// What the checks determine of the bits that peeling leaves, by elimination in these bits alone.
#![tactic(auto)]

mod eliminate;
pub mod gather;

ghost use Rattle.std.specs.Prelude.{◌≡◌, length};
ghost use Rattle.parity.specs.Matrix.{lent};
ghost use Rattle.sets.specs.Sets.{Short};
ghost use Rattle.residue.specs.Sets.{Given, Posed, Finished};

use crate::eliminate::eliminate;
use elimination::width_of;
use result::{agree, write};
use rows::words_of;
use sets::size;

// Elimination, in rows of as many words as are good for the bits, and writing. `eliminate` is called at two places, so that the compiler leaves it a
// function of its own: its rows are then on the stack while they are used, and not while the matrix is accepted.
fn finish_left(
    words: &[u64],
    bits: usize,
    checks: usize,
    word: &mut [u8],
    lost: &[u64],
    residue: &[u64],
    known: &[u64],
    left: &mut [u64],
    values: &mut [u64],
) -> bool
    requires { Posed 8 words.now bits checks residue.now known.now left.old values.old × (length lost.now ≡ 8) × Short (length word.old) (lent 8 lost.now 0) }
    ensures { Finished words.now bits checks lost.now residue.now known.now word.old result left.new values.new word.new }
{
    let width = width_of(bits);
    if width == 8 {
        if !eliminate(words, 8, bits, checks, residue, known, left, values) {
            return false;
        }
        write(word, lost, left, values, 8);
        return true;
    }
    if !eliminate(words, width, bits, checks, residue, known, left, values) {
        return false;
    }
    write(word, lost, left, values, 8);
    true
}

// What the checks determine of a word that is peeled, with the sets `residue` of its erased bits and `known` of its ones. Whether some codeword
// agrees with it; if so, each bit that was lost and is determined gets its byte, and leaves `left`.
pub fn finish(
    words: &[u64],
    bits: usize,
    checks: usize,
    word: &mut [u8],
    lost: &[u64],
    residue: &[u64],
    known: &[u64],
    left: &mut [u64],
    values: &mut [u64],
) -> bool
    requires { Given words.now bits checks residue.now known.now left.old values.old × (length lost.now ≡ 8) × Short (length word.old) (lent 8 lost.now 0) }
    ensures { Finished words.now bits checks lost.now residue.now known.now word.old result left.new values.new word.new }
{
    if !agree(words, words_of(bits), checks, residue, known) {
        return false;
    }
    if size(residue) == 0 {
        write(word, lost, left, values, 8);
        return true;
    }
    finish_left(
        words, bits, checks, word, lost, residue, known, left, values,
    )
}
