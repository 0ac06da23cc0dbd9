// One door for sample blocks: a received word is mended with a matrix without added bits, in up to three stages.
#![tactic(auto)]

ghost use Rattle.std.specs.Prelude.{◌≡◌, false, ◌++◌, ◌-◌, ◌≤◌, ◌<◌, length, replicate};
ghost use Rattle.parity.specs.Matrix.{cause};
ghost use Rattle.parity.specs.Causes.{result_reply};
ghost use Rattle.parity.specs.Calls.{wrong_byte};
ghost use Rattle.parity.specs.Block.{eliminating, peeling_copy, peeling_given, block_outcome};
ghost use Rattle.block.specs.Answers.{Admitted, mended_values, finished, staged, Kept, Ready};

use determine::determine_admitted;
use extended::peel_extended;
use matrix::accept;
use parity::Refusal;
use peel::peel_admitted;
use sets::bytes::erased_behind;
use word::admit;

// What mending answers: the last stage to run, and how many bits the two peelings recovered together.
#[derive(Clone, Copy, Debug, PartialEq, Eq)]
pub struct Mended {
    pub stage: u64,
    pub recovered: u64,
}

// What the two peelings come to: the one of them that made the word whole, or none if bits remain, for elimination; and how many bits they recovered together.
#[derive(Clone, Copy)]
struct Peeled {
    stage: Option<u64>,
    recovered: u64,
}

// Stage 3: elimination on the given matrix.
fn eliminate(
    words: &[u64],
    n: usize,
    m: usize,
    word: &mut [u8],
    recovered: u64,
) -> Result<Mended, Refusal>
    requires { Admitted words.now n m word.old }
    ensures result_value { result_reply mended_values result ≡ (eliminating words.now n m word.old recovered).reply }
    ensures word_after { word.new ≡ (eliminating words.now n m word.old recovered).after }
{
    determine_admitted(words, n, m, 0, word)?;
    Ok(Mended {
        stage: 3,
        recovered,
    })
}

// Stage 2: the orthogonalised copy is peeled from the received word, which `longer` has with bytes of 2 behind it.
fn peel_copy(
    words: &[u64],
    n: usize,
    m: usize,
    word: &mut [u8],
    longer: &mut [u8],
    recovered: u64,
) -> Result<Peeled, Refusal>
    requires { (cause words.now n m 0 ≡ 0) × (length word.old ≡ n) × (wrong_byte 2 word.old ≡ false) × (longer.old ≡ word.old ++ replicate (512 - n) 2) × (recovered ≤ n) }
    ensures word_after { staged words.now n m result word.new ≡ peeling_copy words.now n m word.old recovered }
    ensures kept { Kept result word.old word.new }
{
    match peel_extended(words, n, m, longer)? {
        None => Ok(Peeled {
            stage: None,
            recovered,
        }),
        Some(copy) => {
            let both = recovered + copy.recovered;
            if copy.left != 0 {
                return Ok(Peeled {
                    stage: None,
                    recovered: both,
                });
            }
            word.copy_from_slice(&longer[..n]);
            Ok(Peeled {
                stage: Some(2),
                recovered: both,
            })
        }
    }
}

// Stage 1: the given matrix is peeled; if sent bits remain, stage 2 follows, from the received word.
fn peel_given(words: &[u64], n: usize, m: usize, word: &mut [u8]) -> Result<Peeled, Refusal>
    requires { Admitted words.now n m word.old }
    ensures word_after { staged words.now n m result word.new ≡ peeling_given words.now n m word.old }
    ensures kept { Kept result word.old word.new }
{
    let mut longer = erased_behind(word);
    let mut first = longer;
    let losses = peel_admitted(words, n, m, 0, &mut first[..n])?;
    let recovered = losses.recovered_sent + losses.recovered_added;
    if losses.left_sent != 0 {
        return peel_copy(words, n, m, word, &mut longer, recovered);
    }
    word.copy_from_slice(&first[..n]);
    Ok(Peeled {
        stage: Some(1),
        recovered,
    })
}

// If bits remain after the peelings, stage 3 follows.
fn finish(
    words: &[u64],
    n: usize,
    m: usize,
    word: &mut [u8],
    peeled: Peeled,
) -> Result<Mended, Refusal>
    requires { (cause words.now n m 0 ≡ 0) × Ready peeled.stage n word.old }
    ensures result_value { result_reply mended_values result ≡ (finished words.now n m peeled.stage peeled.recovered word.old).reply }
    ensures word_after { word.new ≡ (finished words.now n m peeled.stage peeled.recovered word.old).after }
{
    match peeled.stage {
        Some(stage) => Ok(Mended {
            stage,
            recovered: peeled.recovered,
        }),
        None => eliminate(words, n, m, word, peeled.recovered),
    }
}

// All stages. The copy is on the stack in the peelings, and must not be while the matrix is accepted or eliminated: called at two places, their function
// is left by itself by the compiler.
fn mend_admitted(words: &[u64], n: usize, m: usize, word: &mut [u8]) -> Result<Mended, Refusal>
    requires { Admitted words.now n m word.old }
    ensures result_value { result_reply mended_values result ≡ (peeling_given words.now n m word.old).reply }
    ensures word_after { word.new ≡ (peeling_given words.now n m word.old).after }
{
    if m == 0 {
        let none = peel_given(words, n, 0, word)?;
        return finish(words, n, 0, word, none);
    }
    let peeled = peel_given(words, n, m, word)?;
    finish(words, n, m, word, peeled)
}

// Mends a received word with a matrix without added bits: each bit at which all codewords that agree with it have one value gets this value, and the
// others keep 2. A matrix with added bits is refused by causes 1 to 4, and else by 13.
pub fn mend_block(
    words: &[u64],
    n: usize,
    m: usize,
    k: usize,
    word: &mut [u8],
) -> Result<Mended, Refusal>
    ensures result_value { result_reply mended_values result ≡ (block_outcome words.now n m k word.old).reply }
    ensures word_after { word.new ≡ (block_outcome words.now n m k word.old).after }
{
    if 0 < k {
        accept(words, n, m, k)?;
        return Err(Refusal::AddedBits);
    }
    admit(words, n, m, k, word, 2)?;
    mend_admitted(words, n, m, word)
}
