// Records: a matrix is loaded from one, and written as one.
#![tactic(auto)]

mod fill;

ghost use Rattle.std.specs.Prelude.{◌≡◌, false, length};
ghost use Rattle.parity.specs.Record.{carries};
ghost use Rattle.parity.specs.Causes.{result_reply, number_values};
ghost use Rattle.parity.specs.Calls.{load_outcome, write_outcome};
ghost use Rattle.parity.specs.declared.Form.TheVariants.{Third};
ghost use Rattle.reading.specs.Judge.{ChecksRight};
ghost use Rattle.record.specs.Answers.{sizes_values};

use crate::fill::fill;
use carried::perform::perform;
use matrix::accept;
use parity::{Form, Refusal};
use reading::judge::{Head, Judged, end, judge};
use writing::write_accepted;

// The sizes of a loaded matrix: n, m and the number of added bits.
#[derive(Clone, Copy, Debug, PartialEq, Eq)]
pub struct Sizes {
    pub n: usize,
    pub m: usize,
    pub k: usize,
}

// Loads a record without splits that is judged right up to its last check.
fn load_plain(record: &[u32], words: &mut [u64], judged: Judged) -> Result<Sizes, Refusal>
    requires { (length words.old ≡ 4096) × (carries judged.head.form ≡ false) × ChecksRight judged.head.form judged.head.n judged.head.m «record».now judged.place }
    ensures result_value { result_reply sizes_values result ≡ (load_outcome «record».now words.old).reply }
    ensures words_after { words.new ≡ (load_outcome «record».now words.old).after }
{
    let Head { n, m, .. } = judged.head;
    end(record, judged.place)?;
    fill(record, words, m);
    Ok(Sizes { n, m, k: 0 })
}

// Loads a record of the third form that is judged right up to its last check: its splits are performed in a working copy.
fn load_splits(record: &[u32], words: &mut [u64], judged: Judged) -> Result<Sizes, Refusal>
    requires { (length words.old ≡ 4096) × ChecksRight Third judged.head.n judged.head.m «record».now judged.place }
    ensures result_value { result_reply sizes_values result ≡ (load_outcome «record».now words.old).reply }
    ensures words_after { words.new ≡ (load_outcome «record».now words.old).after }
{
    let Head { n, m, .. } = judged.head;
    let mut copy = [0u64; 4096];
    fill(record, &mut copy, m);
    let k = perform(record, &mut copy, n, m, judged.place);
    end(record, judged.place + k)?;
    words.copy_from_slice(&copy);
    Ok(Sizes { n, m, k })
}

// Loads the matrix of a record, of any form, into all 4,096 words.
pub fn load(record: &[u32], words: &mut [u64]) -> Result<Sizes, Refusal>
    ensures result_value { result_reply sizes_values result ≡ (load_outcome «record».now words.old).reply }
    ensures words_after { words.new ≡ (load_outcome «record».now words.old).after }
{
    if words.len() != 4096 {
        return Err(Refusal::MatrixLength);
    }
    let judged = judge(record)?;
    match judged.head.form {
        Form::First | Form::Second => load_plain(record, words, judged),
        Form::Third => load_splits(record, words, judged),
    }
}

// Writes a matrix into the first words of a record, which is of the second form where k = 0 and else of the third. The call at two places keeps the working copy,
// which is made there, out of this frame: it does not stand on the stack with acceptance.
pub fn write(
    words: &[u64],
    n: usize,
    m: usize,
    k: usize,
    record: &mut [u32],
) -> Result<usize, Refusal>
    ensures result_value { result_reply number_values result ≡ (write_outcome words.now n m k «record».old).reply }
    ensures record_after { «record».new ≡ (write_outcome words.now n m k «record».old).after }
{
    accept(words, n, m, k)?;
    if k == 0 {
        return write_accepted(words, Form::Second, n, m, k, record);
    }
    write_accepted(words, Form::Third, n, m, k, record)
}
