// The house codes: copied into matrix words by their names.
#![tactic(auto)]

pub mod rule;
pub mod tables;

ghost use Rattle.std.specs.Prelude.{◌≡◌, length};
ghost use Rattle.parity.specs.Causes.{result_reply};
ghost use Rattle.parity.specs.Calls.{house_outcome};
ghost use Rattle.house.specs.Answers.{size_values};
ghost use Rattle.house.specs.Names.{code, Named};
ghost use Rattle.rows.specs.Zeros.{Zeroed};
ghost use Rattle.house.specs.Holding.{Holding};

use crate::rule::size;
use crate::tables::word;
use parity::{Check, Refusal};

// The names of the codes, whose numbers are those below 5: the circulant, and the Hamming checks for each length.
#[derive(Clone, Copy, Debug, PartialEq, Eq)]
pub enum Name {
    Circulant,
    Hamming3,
    Hamming7,
    Hamming15,
    Hamming31,
}

// The size of a code: its numbers of bits and of checks.
#[derive(Clone, Copy, Debug, PartialEq, Eq)]
pub struct Size {
    pub n: usize,
    pub m: usize,
}

// The name of a number.
pub fn named(number: usize) -> Result<Name, Refusal>
    ensures { Named number result }
{
    match number {
        0 => Ok(Name::Circulant),
        1 => Ok(Name::Hamming3),
        2 => Ok(Name::Hamming7),
        3 => Ok(Name::Hamming15),
        4 => Ok(Name::Hamming31),
        _ => Err(Refusal::UnknownName),
    }
}

// Puts the checks of the code of a name into words that are all 0: each is one word of the table, the first of its row.
fn put_checks(name: Name, words: &mut [u64])
    requires { (length words.old ≡ 4096) × Zeroed words.old 4096 }
    ensures { Holding 8 (code name).matrix (code name).m words.new }
{
    for c in 0..size(name).m {
        words[c * 8] = word(name, Check(c)) as u64;
    }
}

// Copies the code of a name into all 4,096 words.
pub fn copy(name: usize, words: &mut [u64]) -> Result<Size, Refusal>
    ensures result_value { result_reply size_values result ≡ (house_outcome name words.old).reply }
    ensures words_after { words.new ≡ (house_outcome name words.old).after }
{
    if words.len() != 4096 {
        return Err(Refusal::MatrixLength);
    }
    let known = named(name)?;
    words.fill(0);
    put_checks(known, words);
    Ok(size(known))
}
