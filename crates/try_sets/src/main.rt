// The stopping sets of one to four sent bits. First how many known codes have, given and orthogonalised. Then sets that are listed, on slices of
// several lengths whose places held 900, and bad input: such a line has the case and the size, how many sets there are, or the number of the
// refusal and the places needed, and what stands in the slice.
#![tactic(auto)]

ghost use Rattle.std.specs.Prelude.{◌≤◌};

use house::Size;
use parity::Refusal;
use samples::cases;
use samples::say::Why;
use std::{fmt, io};

// What listing answers.
#[derive(Clone, Copy)]
struct Answer(Result<usize, Refusal>);

impl fmt::Display for Answer {
    fn fmt<W: fmt::Write>(&self, f: &mut fmt::Formatter<W>) -> fmt::Result {
        match self.0 {
            Ok(sets) => write!(f, "{sets}"),
            Err(r) => write!(f, "refused {}", Why(r)),
        }
    }
}

// Places of a slice, each behind a space.
#[derive(Clone, Copy)]
struct Places<'a>(&'a [u16]);

impl<'a> fmt::Display for Places<'a> {
    fn fmt<W: fmt::Write>(&self, f: &mut fmt::Formatter<W>) -> fmt::Result {
        for x in self.0 {
            write!(f, " {x}")?;
        }
        Ok(())
    }
}

// How many sets of each size there are.
fn numbers(
    rt: &impl Print,
    words: &[u64],
    n: usize,
    m: usize,
    k: usize,
    sets: &mut [u16],
) -> io::Result<()> {
    for t in 1..5 {
        print!(rt; " {}", Answer(stopping_sets::list(words, n, m, k, t, sets)))?;
    }
    println!(rt)
}

// Orthogonalises, and answers k.
fn orthogonalise(rt: &impl Print, words: &mut [u64], n: usize, m: usize) -> io::Result<usize> {
    match orthogonalise::orthogonalise(words, n, m, 0) {
        Ok(o) => Ok(o.k),
        Err(r) => {
            print!(rt; " refused {}", Why(r))?;
            Ok(0)
        }
    }
}

fn both(rt: &impl Print, name: &str, words: &mut [u64], n: usize, m: usize) -> io::Result<()> {
    let mut sets = [0; 32860];
    print!(rt; "{name}, given:")?;
    numbers(rt, words, n, m, 0, &mut sets)?;
    let k = orthogonalise(rt, words, n, m)?;
    print!(rt; "{name}, orthogonalised:")?;
    numbers(rt, words, n, m, k, &mut sets)
}

fn house_code(rt: &impl Print, head: &str, name: usize) -> io::Result<()> {
    let mut words = [0; 4096];
    match house::copy(name, &mut words) {
        Ok(Size { n, m }) => both(rt, head, &mut words, n, m),
        Err(r) => print!(rt; " refused {}", Why(r)),
    }
}

fn known_numbers(rt: &impl Print) -> io::Result<()> {
    both(rt, "A", &mut cases::a(), 7, 3)?;
    both(rt, "C", &mut cases::c(), 7, 3)?;
    house_code(rt, "Hamming 15", 3)?;
    house_code(rt, "Hamming 31", 4)
}

// A line on a slice of so many places.
fn on(
    rt: &impl Print,
    count: usize,
    head: &str,
    words: &[u64],
    n: usize,
    m: usize,
    k: usize,
    t: usize,
) -> io::Result<()>
    requires { count ≤ 32 }
{
    let mut places = [900; 32];
    let sets = &mut places[..count];
    let answer = Answer(stopping_sets::list(words, n, m, k, t, sets));
    println!(rt; "{head} {t}: {answer} |{}", Places(sets))
}

// Seven sets of three: no place, one too few, as many as needed, more.
fn lengths(rt: &impl Print, words: &[u64]) -> io::Result<()> {
    on(rt, 0, "C", words, 7, 3, 0, 3)?;
    on(rt, 20, "C", words, 7, 3, 0, 3)?;
    on(rt, 21, "C", words, 7, 3, 0, 3)?;
    on(rt, 25, "C", words, 7, 3, 0, 3)?;
    on(rt, 0, "C", words, 7, 3, 0, 1)?;
    on(rt, 3, "C", words, 7, 3, 0, 2)
}

fn sizes(rt: &impl Print, words: &[u64]) -> io::Result<()> {
    on(rt, 5, "C", words, 7, 3, 0, 0)?;
    on(rt, 5, "C", words, 7, 3, 0, 5)?;
    on(rt, 0, "C", words, 7, 3, 0, usize::MAX)?;
    on(rt, 5, "n = 0,", words, 0, 3, 0, 5)?;
    on(rt, 5, "n = 6,", words, 6, 3, 0, 0)
}

// No check: every set. Of 120 bits there are millions.
fn no_check(rt: &impl Print) -> io::Result<()> {
    let words = [0; 4096];
    on(rt, 8, "no check, n = 4,", &words, 4, 0, 0, 1)?;
    on(rt, 14, "no check, n = 4,", &words, 4, 0, 0, 2)?;
    on(rt, 5, "no check, n = 4,", &words, 4, 0, 0, 4)?;
    on(rt, 5, "no check, n = 3,", &words, 3, 0, 0, 4)?;
    on(rt, 5, "no check, n = 120,", &words, 120, 0, 0, 4)?;
    on(rt, 5, "4,095 words,", &words[..4095], 3, 0, 0, 5)
}

// One added check {0, 1, 3}: a set has both of the bits 0 and 1, or none of them, and never bit 3.
fn added_check(rt: &impl Print) -> io::Result<()> {
    let mut words = [0; 4096];
    words[0] = 0b1011;
    for t in 1..5 {
        on(rt, 5, "added check", &words, 3, 0, 1, t)?;
    }
    Ok(())
}

fn main(rt: HostRuntime) -> io::Result<()> {
    known_numbers(&rt)?;
    let c = cases::c();
    lengths(&rt, &c)?;
    sizes(&rt, &c)?;
    no_check(&rt)?;
    added_check(&rt)
}
