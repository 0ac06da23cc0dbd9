// Mending blocks by each of the three stages, words that each of them refuses, and bad input. A line has the case, what the call answers (the last
// stage to run, and how many bits the two peelings recovered together), and the word afterwards, with ? for erased and x for a byte above 2.
#![tactic(auto)]

use block::Mended;
use parity::Refusal;
use samples::say::{Symbols, Why};
use std::{fmt, io};

// What the call answers.
#[derive(Clone, Copy)]
struct Answer(Result<Mended, Refusal>);

impl fmt::Display for Answer {
    fn fmt<W: fmt::Write>(&self, f: &mut fmt::Formatter<W>) -> fmt::Result {
        match self.0 {
            Ok(Mended { stage, recovered }) => write!(f, "stage {stage}, recovered {recovered}"),
            Err(r) => write!(f, "REFUSED {}", Why(r)),
        }
    }
}

fn mend_line(
    rt: &impl Print,
    head: &str,
    words: &[u64],
    n: usize,
    m: usize,
    k: usize,
    word: &mut [u8],
) -> io::Result<()> {
    let answer = Answer(block::mend_block(words, n, m, k, word));
    println!(rt; "{head}: {answer} {}", Symbols(word))
}

// C, with a word for its seven bits.
fn c_line(rt: &impl Print, head: &str, c: &[u64], word: &mut [u8]) -> io::Result<()> {
    mend_line(rt, head, c, 7, 3, 0, word)
}

fn c_stages(rt: &impl Print, c: &[u64]) -> io::Result<()> {
    c_line(rt, "C, nothing erased", c, &mut [0, 0, 1, 1, 1, 1, 1])?;
    c_line(rt, "C, two erased", c, &mut [0, 0, 2, 1, 2, 1, 1])?;
    let mut three = [2, 2, 2, 1, 1, 1, 1];
    c_line(rt, "C, three erased", c, &mut three)?;
    c_line(rt, "C, once more", c, &mut three)?;
    c_line(rt, "C, four erased", c, &mut [2, 2, 2, 2, 1, 1, 1])?;
    c_line(rt, "C, all erased", c, &mut [2; 7])?;
    c_line(rt, "C, no codeword", c, &mut [1, 0, 0, 0, 0, 0, 0])
}

fn c_refused(rt: &impl Print, c: &[u64]) -> io::Result<()> {
    c_line(rt, "C, two wrong bytes", c, &mut [2, 2, 2, 3, 1, 1, 255])?;
    let mut short = [2, 2, 2, 1, 1, 1];
    c_line(rt, "C, n - 1 bytes", c, &mut short)?;
    mend_line(rt, "C, n = 121", c, 121, 3, 0, &mut short)?;
    mend_line(rt, "C, m = 2", c, 7, 2, 0, &mut short)?;
    mend_line(rt, "C, k = 1", c, 7, 3, 1, &mut short)?;
    mend_line(rt, "4,095 words", &[0; 4095], 7, 3, 0, &mut short)
}

fn case_c(rt: &impl Print) -> io::Result<()> {
    let c = samples::cases::c();
    c_stages(rt, &c)?;
    c_refused(rt, &c)
}

fn case_d(rt: &impl Print) -> io::Result<()> {
    let d = samples::cases::d();
    let mut word = [2, 2, 2, 1, 1, 1, 1, 2];
    mend_line(rt, "D, k = 1", &d, 7, 3, 1, &mut word)?;
    mend_line(rt, "D, k = 1, one wrong byte", &d, 7, 3, 1, &mut [9])
}

// {0,1,2} {0,1,3} {2,3,4}: what only the second peeling refuses, and what elimination recovers.
fn pair(rt: &impl Print) -> io::Result<()> {
    let mut words = [0u64; 4096];
    words[0] = 0b111;
    words[8] = 0b1011;
    words[16] = 0b11100;
    let mut two = [2, 2, 0, 1, 1];
    mend_line(rt, "the second peeling refuses", &words, 5, 3, 0, &mut two)?;
    let mut all = [2, 2, 2, 2, 2];
    mend_line(rt, "elimination recovers one", &words, 5, 3, 0, &mut all)?;
    let mut four = [0, 2, 2, 2, 2];
    let head = "elimination recovers one of four";
    mend_line(rt, head, &words, 5, 3, 0, &mut four)
}

// {0,1} {1,2} {0,2,3}: no pair to split; what only elimination refuses.
fn triangle(rt: &impl Print) -> io::Result<()> {
    let mut words = [0u64; 4096];
    words[0] = 0b11;
    words[8] = 0b110;
    words[16] = 0b1101;
    let mut one = [2, 2, 2, 1];
    mend_line(rt, "only elimination refuses", &words, 4, 3, 0, &mut one)?;
    let mut zero = [2, 2, 2, 0];
    mend_line(rt, "elimination leaves three", &words, 4, 3, 0, &mut zero)?;
    let mut all = [2, 2, 2, 2];
    let head = "elimination recovers the last";
    mend_line(rt, head, &words, 4, 3, 0, &mut all)
}

// I, which the first peeling refuses; and no checks at all.
fn first(rt: &impl Print) -> io::Result<()> {
    let i = samples::cases::i();
    mend_line(rt, "the first peeling refuses", &i, 2, 2, 0, &mut [2, 1])?;
    mend_line(rt, "no checks", &[0; 4096], 2, 0, 0, &mut [2, 2])
}

fn main(rt: HostRuntime) -> io::Result<()> {
    case_c(&rt)?;
    case_d(&rt)?;
    pair(&rt)?;
    triangle(&rt)?;
    first(&rt)
}
