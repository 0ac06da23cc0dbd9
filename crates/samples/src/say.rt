// Answers as text.
use parity::{Losses, Refusal};
use std::fmt;

// A refusal: its number, and its place or the length needed.
#[derive(Clone, Copy)]
pub struct Why(pub Refusal);

impl fmt::Display for Why {
    fn fmt<W: fmt::Write>(&self, f: &mut fmt::Formatter<W>) -> fmt::Result {
        write!(f, "{}", refusals::number(self.0))?;
        match self.0 {
            Refusal::FaultyWord { place }
            | Refusal::WrongByte { place }
            | Refusal::WrongFloat { place }
            | Refusal::LowAboveHigh { place } => write!(f, " at {place}"),
            Refusal::RecordTooShort { needed } | Refusal::SetsTooShort { needed } => {
                write!(f, ", needs {needed}")
            }
            _ => Ok(()),
        }
    }
}

// Of the bits recovered and left, how many are sent bits and how many added.
#[derive(Clone, Copy)]
pub struct Counted(pub Losses);

impl fmt::Display for Counted {
    fn fmt<W: fmt::Write>(&self, f: &mut fmt::Formatter<W>) -> fmt::Result {
        let Losses {
            recovered_sent,
            recovered_added,
            left_sent,
            left_added,
        } = self.0;
        write!(
            f,
            "recovered {recovered_sent} {recovered_added} left {left_sent} {left_added}"
        )
    }
}

// A word, with ? for erased, and x for a byte above 2.
#[derive(Clone, Copy)]
pub struct Symbols<'a>(pub &'a [u8]);

impl<'a> fmt::Display for Symbols<'a> {
    fn fmt<W: fmt::Write>(&self, f: &mut fmt::Formatter<W>) -> fmt::Result {
        for byte in self.0 {
            write!(f, "{}", symbol(*byte))?;
        }
        Ok(())
    }
}

fn symbol(byte: u8) -> char {
    match byte {
        0 => '0',
        1 => '1',
        2 => '?',
        _ => 'x',
    }
}

// The eight hexadecimal digits of a float, and of one that is not a number those of the quiet NaN.
#[derive(Clone, Copy)]
pub struct Digits(pub f32);

impl fmt::Display for Digits {
    fn fmt<W: fmt::Write>(&self, f: &mut fmt::Formatter<W>) -> fmt::Result {
        let bits = if self.0.is_nan() {
            0x7fc0_0000
        } else {
            self.0.to_bits()
        };
        write!(f, "{bits:08x}")
    }
}
