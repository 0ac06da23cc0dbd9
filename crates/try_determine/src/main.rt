// Determining beside peeling, on document 01's cases, on longer gaps and on bad input. A line has the case, what the call answers (of the bits
// recovered and left, how many are sent bits and how many added), and the word afterwards, with ? for erased and x for a byte above 2.
#![tactic(auto)]

use parity::{Losses, Refusal};
use samples::say::{Counted, Symbols, Why};
use std::io;

fn line(
    rt: &impl Print,
    head: &str,
    by: &str,
    answer: Result<Losses, Refusal>,
    word: &[u8],
) -> io::Result<()> {
    match answer {
        Ok(losses) => println!(rt; "{head}, {by}: {} {}", Counted(losses), Symbols(word)),
        Err(why) => println!(rt; "{head}, {by}: REFUSED {} {}", Why(why), Symbols(word)),
    }
}

fn peel_line(
    rt: &impl Print,
    head: &str,
    words: &[u64],
    n: usize,
    m: usize,
    k: usize,
    word: &mut [u8],
) -> io::Result<()> {
    let answer = peel::peel(words, n, m, k, word);
    line(rt, head, "peeling", answer, word)
}

fn determine_line(
    rt: &impl Print,
    head: &str,
    words: &[u64],
    n: usize,
    m: usize,
    k: usize,
    word: &mut [u8],
) -> io::Result<()> {
    let answer = determine::determine(words, n, m, k, word);
    line(rt, head, "determining", answer, word)
}

fn c_words(rt: &impl Print, words: &[u64]) -> io::Result<()> {
    let mut w = [2, 2, 2, 1, 1, 1, 1];
    peel_line(rt, "C", words, 7, 3, 0, &mut w)?;
    determine_line(rt, "C", words, 7, 3, 0, &mut w)?;
    determine_line(rt, "C, once more", words, 7, 3, 0, &mut w)?;
    let mut all = [2, 2, 2, 2, 2, 2, 2];
    determine_line(rt, "C, all erased", words, 7, 3, 0, &mut all)?;
    let mut four = [2, 2, 2, 2, 1, 1, 1];
    determine_line(rt, "C, four erased", words, 7, 3, 0, &mut four)?;
    let mut odd = [1, 0, 0, 0, 0, 0, 0];
    determine_line(rt, "C, no codeword", words, 7, 3, 0, &mut odd)
}

fn c_refused(rt: &impl Print, words: &[u64]) -> io::Result<()> {
    let mut byte = [2, 2, 2, 3, 1, 1, 255];
    determine_line(rt, "C, two wrong bytes", words, 7, 3, 0, &mut byte)?;
    let mut short = [2, 2, 2, 1, 1, 1];
    determine_line(rt, "C, n - 1 bytes", words, 7, 3, 0, &mut short)?;
    let few = [0u64; 4095];
    determine_line(rt, "4,095 words", &few, 7, 3, 0, &mut short)
}

fn case_c(rt: &impl Print) -> io::Result<()> {
    let words = samples::cases::c();
    c_words(rt, &words)?;
    c_refused(rt, &words)
}

fn case_d(rt: &impl Print) -> io::Result<()> {
    let words = samples::cases::d();
    let mut w = [2, 2, 2, 1, 1, 1, 1, 2];
    determine_line(rt, "D", &words, 7, 3, 1, &mut w)?;
    let mut all = [2, 2, 2, 2, 2, 2, 2, 2];
    determine_line(rt, "D, all erased", &words, 7, 3, 1, &mut all)?;
    let mut sent = [2, 2, 2, 1, 1, 1, 1];
    determine_line(rt, "D, n bytes", &words, 7, 3, 1, &mut sent)
}

// {0,1} {0,1,2}: peeling answers though no codeword agrees; and {0,1} twice, which fixes neither.
fn no_codeword(rt: &impl Print) -> io::Result<()> {
    let mut words = [0u64; 4096];
    words[0] = 0b11;
    words[8] = 0b111;
    let mut none = [2, 2, 1];
    peel_line(rt, "none agrees", &words, 3, 2, 0, &mut none)?;
    determine_line(rt, "none agrees", &words, 3, 2, 0, &mut none)?;
    let mut some = [2, 2, 0];
    determine_line(rt, "two agree", &words, 3, 2, 0, &mut some)?;
    words[8] = 0b11;
    let mut twice = [2, 2, 2];
    determine_line(rt, "a check twice", &words, 3, 2, 0, &mut twice)?;
    let free = [0u64; 4096];
    let mut f = [2, 2];
    determine_line(rt, "no checks", &free, 2, 0, 0, &mut f)
}

// A codeword of L in which a gap of eleven bits is erased,
fn l_eleven(rt: &impl Print, words: &[u64]) -> io::Result<()> {
    let mut w =
        *b"\x01\x00\x01\x01\x02\x02\x02\x02\x02\x02\x02\x02\x02\x02\x02\x00\x00\x00\x01\x00\x01\x01\x00";
    peel_line(rt, "L, eleven", words, 23, 23, 0, &mut w)?;
    determine_line(rt, "L, eleven", words, 23, 23, 0, &mut w)
}

// and one of twelve.
fn l_twelve(rt: &impl Print, words: &[u64]) -> io::Result<()> {
    let mut w =
        *b"\x01\x00\x01\x01\x02\x02\x02\x02\x02\x02\x02\x02\x02\x02\x02\x02\x00\x00\x01\x00\x01\x01\x00";
    peel_line(rt, "L, twelve", words, 23, 23, 0, &mut w)?;
    determine_line(rt, "L, twelve", words, 23, 23, 0, &mut w)?;
    w[0] = 0;
    determine_line(rt, "L, twelve and a false bit", words, 23, 23, 0, &mut w)
}

fn case_l(rt: &impl Print) -> io::Result<()> {
    let words = samples::cases::l();
    l_eleven(rt, &words)?;
    l_twelve(rt, &words)
}

fn main(rt: HostRuntime) -> io::Result<()> {
    case_c(&rt)?;
    case_d(&rt)?;
    no_codeword(&rt)?;
    case_l(&rt)
}
