// Replies as text.
use parity::Refusal;
use record::Sizes;
use samples::say::Why;
use std::fmt;

// What loading a record answers.
#[derive(Clone, Copy)]
pub struct Loaded(pub Result<Sizes, Refusal>);

impl fmt::Display for Loaded {
    fn fmt<W: fmt::Write>(&self, f: &mut fmt::Formatter<W>) -> fmt::Result {
        match self.0 {
            Ok(Sizes { n, m, k }) => write!(f, "n = {n}, m = {m}, k = {k}"),
            Err(why) => write!(f, "refused {}", Why(why)),
        }
    }
}

// What writing a record answers.
#[derive(Clone, Copy)]
pub struct Written(pub Result<usize, Refusal>);

impl fmt::Display for Written {
    fn fmt<W: fmt::Write>(&self, f: &mut fmt::Formatter<W>) -> fmt::Result {
        match self.0 {
            Ok(used) => write!(f, "words {used}"),
            Err(why) => write!(f, "refused {}", Why(why)),
        }
    }
}

// The place of the faulty word alone, and - where the record loads.
#[derive(Clone, Copy)]
pub struct Place(pub Result<Sizes, Refusal>);

impl fmt::Display for Place {
    fn fmt<W: fmt::Write>(&self, f: &mut fmt::Formatter<W>) -> fmt::Result {
        match self.0 {
            Ok(_) => write!(f, " -"),
            Err(Refusal::FaultyWord { place }) => write!(f, " {place}"),
            Err(_) => Ok(()),
        }
    }
}
