// What the receiver does with a record and a word: a function from the input's bytes to the output's.
#![tactic(auto)]

mod input;
mod stages;

ghost use Rattle.std.specs.Prelude.{◌≡◌, length};
ghost use Rattle.parity.specs.Mend.{mend as mendText};
ghost use Rattle.lines.specs.Placed.{Placed};
ghost use Rattle.receiver.specs.Answers.{mending_answer, mending_output};

use crate::input::{is_wrong, read_words, size};
use crate::stages::load;
use lines::put_refused;
use parity::Refusal;

// The output is too short for the text, which needs so many bytes.
#[derive(Clone, Copy, Debug, PartialEq, Eq)]
pub struct TooShort {
    pub needed: usize,
}

// Room for every text, as `mend_fits` of proofs/Fits says.
pub fn no_text() -> [u8; 4096]
    ensures { length result ≡ 4096 }
{
    [0u8; 4096]
}

// Mends: reads a record and a word, loads, orthogonalises, sets the added bits to 2 and peels. Puts the report or the refusal at the
// start of the output, and answers its length.
pub fn put_text(out: &mut [u8; 4096], input: &[u8]) -> usize
    ensures { Placed out.old 0 (mendText input.now) out.new result }
{
    if is_wrong(input) {
        return put_refused(out, Refusal::ProgramInput);
    }
    let w = size(input);
    let start = 4 + 4 * w;
    // the record words of every input that is not refused: at most 16,383
    let mut words = [0u32; 16384];
    read_words(input, w, &mut words);
    load(out, &words[..w], &input[start..])
}

// The same for an output of any length: the text is written at its start if it has room, and else it is left as it was. Answers how many bytes are written.
pub fn mend(input: &[u8], output: &mut [u8]) -> Result<usize, TooShort>
    ensures value { result ≡ mending_answer (mendText input.now) output.old }
    ensures output_after { output.new ≡ mending_output (mendText input.now) output.old }
{
    let mut text = no_text();
    let needed = put_text(&mut text, input);
    if output.len() < needed {
        return Err(TooShort { needed });
    }
    output[..needed].copy_from_slice(&text[..needed]);
    Ok(needed)
}
