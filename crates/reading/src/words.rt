// The words of a record.
ghost use Rattle.std.specs.Prelude.{◌≡◌};
ghost use Rattle.parity.specs.Record.{payload as payloadOf, head_kind, number_in};
ghost use Rattle.reading.specs.Read.{Reads};

use parity::{Check, Form};

// A record word by its kind, with the bits below the kind. The first word's kind is that of the record's form.
#[derive(Clone, Copy, Debug, PartialEq, Eq)]
pub enum Word {
    Head(Form, usize),
    Open(usize),
    Bit(usize),
    Split(usize),
    End(usize),
    Faulty,
}

// The bits below the kind.
pub fn payload(w: u32) -> usize
    ensures { result ≡ payloadOf w }
{
    (w % 0x1000_0000) as usize
}

// Decides a word by its kind: 1, 2, 3, 4, 5, 6, 15 and the refused ranges between.
pub fn read(w: u32) -> Word
    ensures { Reads w result }
{
    let x = payload(w);
    match w >> 28 {
        0 => Word::Faulty,
        1 => Word::Head(Form::First, x),
        2 => Word::Open(x),
        3 => Word::Bit(x),
        4 => Word::Head(Form::Second, x),
        5 => Word::Head(Form::Third, x),
        6 => Word::Split(x),
        7..=14 => Word::Faulty,
        15 => Word::End(x),
        16..=0xffff_ffff => Word::Faulty,
    }
}

// The number that the word which opens a check holds above its number of ones.
pub fn number_in(form: Form, c: Check) -> usize
    ensures { result ≡ number_in form c.0 }
{
    match form {
        Form::First => 0,
        Form::Second | Form::Third => c.0,
    }
}

// The kind of the first word.
pub fn head_kind(form: Form) -> usize
    ensures { result ≡ head_kind form }
{
    match form {
        Form::First => 1,
        Form::Second => 4,
        Form::Third => 5,
    }
}
