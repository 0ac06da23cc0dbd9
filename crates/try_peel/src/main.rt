// Peeling, verifying and testing sets on document 01's cases and on bad input. A line has the case, what the call answers (of the bits
// recovered and left, how many are sent bits and how many added), and after peeling the word, with ? for erased and x for a byte above 2.
#![tactic(auto)]

ghost use Rattle.std.specs.Prelude.{◌<◌, ◌≤◌};

use parity::Refusal;
use samples::say::{Counted, Symbols, Why};
use std::io;

fn peel_line(
    rt: &impl Print,
    head: &str,
    words: &[u64],
    n: usize,
    m: usize,
    k: usize,
    word: &mut [u8],
) -> io::Result<()> {
    match peel::peel(words, n, m, k, word) {
        Ok(losses) => println!(rt; "{head}{} {}", Counted(losses), Symbols(word)),
        Err(why) => println!(rt; "{head}REFUSED {} {}", Why(why), Symbols(word)),
    }
}

// What verifying or testing a set answers.
fn yes_line(rt: &impl Print, head: &str, answer: Result<bool, Refusal>) -> io::Result<()> {
    match answer {
        Ok(true) => println!(rt; "{head}yes"),
        Ok(false) => println!(rt; "{head}no"),
        Err(why) => println!(rt; "{head}REFUSED {}", Why(why)),
    }
}

fn verify_line(
    rt: &impl Print,
    head: &str,
    words: &[u64],
    n: usize,
    m: usize,
    k: usize,
    word: &[u8],
) -> io::Result<()> {
    yes_line(rt, head, word::verify(words, n, m, k, word))
}

fn stopping_line(
    rt: &impl Print,
    head: &str,
    words: &[u64],
    n: usize,
    m: usize,
    k: usize,
    set: &[u8],
) -> io::Result<()> {
    yes_line(rt, head, word::is_stopping(words, n, m, k, set))
}

// Peels a word, and verifies what was left.
fn peel_and_verify(
    rt: &impl Print,
    head: &str,
    again: &str,
    words: &[u64],
    n: usize,
    m: usize,
    k: usize,
    word: &mut [u8],
) -> io::Result<()> {
    peel_line(rt, head, words, n, m, k, word)?;
    verify_line(rt, again, words, n, m, k, word)
}

fn c_words(rt: &impl Print, words: &[u64]) -> io::Result<()> {
    let mut w = [2, 2, 2, 1, 1, 1, 1];
    peel_and_verify(rt, "C: ", "C, what is left: ", words, 7, 3, 0, &mut w)?;
    let mut one = [2, 0, 1, 1, 1, 1, 1];
    peel_and_verify(rt, "C, bit 0: ", "C, its word: ", words, 7, 3, 0, &mut one)?;
    let mut all = [2, 2, 2, 2, 2, 2, 2];
    peel_line(rt, "C, all erased: ", words, 7, 3, 0, &mut all)?;
    let mut none = [0, 0, 1, 1, 1, 1, 1];
    peel_line(rt, "C, none erased: ", words, 7, 3, 0, &mut none)?;
    let mut part = [2, 2, 2, 2, 1, 1, 2];
    peel_line(rt, "C, five erased: ", words, 7, 3, 0, &mut part)
}

fn c_contradictions(rt: &impl Print, words: &[u64]) -> io::Result<()> {
    let mut odd = [1, 0, 0, 0, 0, 0, 0];
    peel_and_verify(
        rt,
        "C, an odd check: ",
        "C, an odd word: ",
        words,
        7,
        3,
        0,
        &mut odd,
    )?;
    let mut later = [2, 0, 0, 2, 0, 0, 1];
    peel_line(rt, "C, odd after bit 0: ", words, 7, 3, 0, &mut later)
}

fn c_sets(rt: &impl Print, words: &[u64]) -> io::Result<()> {
    let stops = [1, 1, 1, 0, 0, 0, 0];
    stopping_line(rt, "C, {0,1,2}: ", words, 7, 3, 0, &stops)?;
    let lone = [0, 0, 0, 0, 0, 0, 1];
    stopping_line(rt, "C, {6} in the last check: ", words, 7, 3, 0, &lone)?;
    let empty = [0, 0, 0, 0, 0, 0, 0];
    stopping_line(rt, "C, {}: ", words, 7, 3, 0, &empty)?;
    verify_line(rt, "C, the zero word: ", words, 7, 3, 0, &empty)?;
    let two = [0, 0, 2, 0, 3, 0, 0];
    stopping_line(rt, "C, a set with 2 and 3: ", words, 7, 3, 0, &two)?;
    verify_line(rt, "C, bytes 2 and 3: ", words, 7, 3, 0, &two)
}

fn case_c(rt: &impl Print) -> io::Result<()> {
    let words = samples::cases::c();
    c_words(rt, &words)?;
    c_contradictions(rt, &words)?;
    c_sets(rt, &words)
}

fn case_d(rt: &impl Print) -> io::Result<()> {
    let words = samples::cases::d();
    let mut w = [2, 2, 2, 1, 1, 1, 1, 2];
    peel_and_verify(rt, "D: ", "D, its word: ", &words, 7, 3, 1, &mut w)?;
    d_bytes(rt, &words)
}

fn d_bytes(rt: &impl Print, words: &[u64]) -> io::Result<()> {
    let mut high = [2, 2, 2, 1, 1, 1, 1, 3];
    peel_line(rt, "D, a last byte 3: ", words, 7, 3, 1, &mut high)?;
    let mut low = [255, 2, 2, 1, 1, 1, 1, 2];
    peel_line(rt, "D, a first byte 255: ", words, 7, 3, 1, &mut low)?;
    let mut several = [2, 2, 2, 3, 255, 1, 1, 255];
    peel_line(rt, "D, three wrong bytes: ", words, 7, 3, 1, &mut several)?;
    let mut seven = [2, 2, 2, 1, 1, 1, 1];
    peel_line(rt, "D with k = 0: ", words, 7, 3, 0, &mut seven)?;
    let mut one = [2];
    peel_line(rt, "D with n = 0: ", words, 0, 3, 1, &mut one)
}

fn e_lengths(rt: &impl Print, words: &[u64]) -> io::Result<()> {
    let mut none: [u8; 0] = [];
    peel_line(rt, "E, no bytes: ", words, 3, 2, 2, &mut none)?;
    let mut sent = [2, 1, 3];
    peel_and_verify(
        rt,
        "E, n bytes: ",
        "E, verifying n bytes: ",
        words,
        3,
        2,
        2,
        &mut sent,
    )?;
    let mut short = [2, 1, 0, 0];
    peel_line(rt, "E, n+k-1 bytes: ", words, 3, 2, 2, &mut short)?;
    let mut long = [2, 1, 0, 2, 2, 2];
    peel_line(rt, "E, n+k+1 bytes: ", words, 3, 2, 2, &mut long)?;
    let mut w = [2, 1, 1, 2, 2];
    peel_and_verify(
        rt,
        "E, n+k bytes: ",
        "E, its word: ",
        words,
        3,
        2,
        2,
        &mut w,
    )
}

// E orthogonalised: {4} {4} {0,1,3} {2,3,4}.
fn case_e(rt: &impl Print) -> io::Result<()> {
    let mut words = [0u64; 4096];
    words[0] = 0b10000;
    words[8] = 0b10000;
    words[16] = 0b1011;
    words[24] = 0b11100;
    e_lengths(rt, &words)?;
    let set = [0, 0, 1, 1, 0, 2];
    stopping_line(rt, "E, a set of n+k+1 bytes: ", &words, 3, 2, 2, &set)?;
    let few = [0u64; 4095];
    let mut w = [2, 1, 3];
    peel_line(rt, "4,095 words: ", &few, 3, 2, 2, &mut w)
}

fn case_f(rt: &impl Print) -> io::Result<()> {
    let words = [0u64; 4096];
    let mut f = [2, 2];
    peel_and_verify(rt, "F: ", "F, what is left: ", &words, 2, 0, 0, &mut f)?;
    let mut free = [2, 0, 1];
    peel_line(rt, "two checks without bits: ", &words, 3, 2, 0, &mut free)
}

fn case_i(rt: &impl Print) -> io::Result<()> {
    let words = samples::cases::i();
    let mut i = [2, 1];
    peel_line(rt, "I: ", &words, 2, 2, 0, &mut i)?;
    let mut j = [2, 2];
    peel_line(rt, "I, both erased: ", &words, 2, 2, 0, &mut j)
}

// Bits 1, 2 and 3 are bit 0, the added bit 9 is the sum of 1 and 2, and nothing determines 4 to 7: four different numbers.
fn four_numbers(rt: &impl Print) -> io::Result<()> {
    let mut words = [0u64; 4096];
    words[0] = 0b11;
    words[8] = 0b101;
    words[16] = 0b1001;
    words[24] = 0b1000000110;
    words[32] = 0b10000110000;
    words[40] = 0b100011000000;
    let mut w = [1, 2, 2, 2, 2, 2, 2, 2, 0, 2, 2, 2];
    peel_line(rt, "sent and added: ", &words, 9, 3, 3, &mut w)
}

// With n = 64 the first added bit is the first of the second word: {0,63,64}.
fn word_edge(rt: &impl Print) -> io::Result<()> {
    let mut words = [0u64; 4096];
    words[0] = 0x8000000000000001;
    words[1] = 1;
    let mut sent = [0u8; 65];
    sent[63] = 2;
    peel_line(rt, "n = 64, bit 63: ", &words, 64, 0, 1, &mut sent)?;
    let mut added = [0u8; 65];
    added[64] = 2;
    peel_line(rt, "n = 64, bit 64: ", &words, 64, 0, 1, &mut added)?;
    let mut both = [0u8; 65];
    both[63] = 2;
    both[64] = 2;
    peel_line(rt, "n = 64, both: ", &words, 64, 0, 1, &mut both)
}

// A codeword of L.
const CODEWORD: [u8; 23] =
    *b"\x01\x00\x01\x01\x00\x00\x01\x00\x01\x01\x00\x01\x01\x00\x01\x00\x00\x00\x01\x00\x01\x01\x00";

// Whether the codeword comes back with bits a and b erased.
fn comes_back(words: &[u64], a: usize, b: usize) -> bool
    requires { (a < 23) × (b < 23) }
{
    let mut w = CODEWORD;
    w[a] = 2;
    w[b] = 2;
    match peel::peel(words, 23, 23, 0, &mut w) {
        Ok(l) => l.left_sent == 0 && w == CODEWORD,
        Err(_) => false,
    }
}

// With how many bits from a on the codeword comes back.
fn pairs_back(words: &[u64], a: usize) -> u64
    requires { a < 23 }
    ensures { result ≤ 23 }
{
    (a..23).filter(|b| comes_back(words, a, *b)).count() as u64
}

// With bit a alone, and with each bit above it, erased.
fn l_line(rt: &impl Print, words: &[u64], a: usize) -> io::Result<()>
    requires { a < 23 }
{
    println!(rt;
        "L, bit {a} alone and with each above: {} of {}",
        pairs_back(words, a),
        23 - a
    )
}

fn l_pairs(rt: &impl Print, words: &[u64]) -> io::Result<()> {
    for a in 0..23 {
        l_line(rt, words, a)?;
    }
    Ok(())
}

fn case_l(rt: &impl Print) -> io::Result<()> {
    let words = samples::cases::l();
    verify_line(rt, "L, a codeword: ", &words, 23, 23, 0, &CODEWORD)?;
    let mut w = CODEWORD;
    w[22] = 2;
    w[5] = 2;
    peel_line(rt, "L, bits 5 and 22: ", &words, 23, 23, 0, &mut w)?;
    l_pairs(rt, &words)
}

fn main(rt: HostRuntime) -> io::Result<()> {
    case_c(&rt)?;
    case_d(&rt)?;
    case_e(&rt)?;
    case_f(&rt)?;
    case_i(&rt)?;
    four_numbers(&rt)?;
    word_edge(&rt)?;
    case_l(&rt)
}
