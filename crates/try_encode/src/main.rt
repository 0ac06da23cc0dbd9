// Rank and encoding on case J's matrix, which is A's, for all 16 messages, on case L's circulant for some, and on bad input; and the message's bits.
// A message that is encoded is followed by its codeword, one that is refused by the number of its cause, and the place of cause 11.
#![tactic(auto)]

use samples::cases;
use samples::say::Why;
use std::{fmt, io};

// The bytes of a message or a word as numbers, with nothing between them.
#[derive(Clone, Copy)]
struct Bytes<'a>(&'a [u8]);

impl<'a> fmt::Display for Bytes<'a> {
    fn fmt<W: fmt::Write>(&self, f: &mut fmt::Formatter<W>) -> fmt::Result {
        for b in self.0 {
            write!(f, "{b}")?;
        }
        Ok(())
    }
}

fn rank(
    rt: &impl Print,
    head: &str,
    words: &[u64],
    n: usize,
    m: usize,
    k: usize,
) -> io::Result<()> {
    match rank::rank(words, n, m, k) {
        Ok(rank) => println!(rt; "{head}: rank {rank}"),
        Err(r) => println!(rt; "{head}: refused {}", Why(r)),
    }
}

fn coded(
    rt: &impl Print,
    words: &[u64],
    n: usize,
    m: usize,
    k: usize,
    message: &[u8],
    word: &mut [u8],
) -> io::Result<()> {
    match encode::encode(words, n, m, k, message, word) {
        Ok(()) => println!(rt; "{} {}", Bytes(message), Bytes(word)),
        Err(r) => println!(rt; "{} refused {}", Bytes(message), Why(r)),
    }
}

// The message of four bits that a number has, the lowest first.
fn four(rt: &impl Print, message: u8) -> io::Result<()> {
    let bits = [
        message & 1,
        message >> 1 & 1,
        message >> 2 & 1,
        message >> 3 & 1,
    ];
    coded(rt, &cases::a(), 7, 3, 0, &bits, &mut [9; 7])
}

fn twelve(rt: &impl Print, message: &[u8; 12]) -> io::Result<()> {
    coded(rt, &cases::l(), 23, 23, 0, message, &mut [9; 23])
}

fn golay(rt: &impl Print) -> io::Result<()> {
    twelve(rt, &[0; 12])?;
    twelve(rt, &[1, 0, 0, 0, 0, 0, 0, 0, 0, 0, 0, 0])?;
    twelve(rt, &[0, 0, 0, 0, 0, 0, 0, 0, 0, 0, 0, 1])?;
    twelve(rt, &[1; 12])?;
    twelve(rt, &[1, 0, 1, 0, 1, 0, 1, 0, 1, 0, 1, 0])?;
    twelve(rt, &[0, 1, 1, 0, 1, 0, 0, 1, 0, 1, 1, 0])?;
    twelve(rt, &[1, 1, 1, 0, 0, 0, 1, 0, 1, 1, 0, 1])
}

// Messages of other lengths, and bytes above 1.
fn bad_bytes(rt: &impl Print) -> io::Result<()> {
    let a = cases::a();
    let mut word = [9; 7];
    coded(rt, &a, 7, 3, 0, &[2, 2, 2], &mut word)?;
    coded(rt, &a, 7, 3, 0, &[0, 1, 0, 1, 0], &mut word)?;
    coded(rt, &a, 7, 3, 0, &[0, 1, 2, 2], &mut word)?;
    coded(rt, &a, 7, 3, 0, &[2, 0, 0, 255], &mut word)?;
    coded(rt, &a, 7, 3, 0, &[0, 0, 0, 2], &mut word)?;
    println!(rt; "{}", Bytes(&word))
}

// Words of other lengths, and other sizes.
fn bad_words(rt: &impl Print) -> io::Result<()> {
    let a = cases::a();
    coded(rt, &a, 7, 3, 0, &[2, 0, 0, 0], &mut [9; 6])?;
    coded(rt, &a, 7, 3, 0, &[1, 0, 0, 0], &mut [9; 8])?;
    let mut word = [9; 7];
    coded(rt, &a, 7, 3, 1, &[2], &mut word)?;
    coded(rt, &a, 7, 2, 0, &[2], &mut word)?;
    coded(rt, &a, 121, 3, 0, &[2], &mut word)?;
    println!(rt; "{}", Bytes(&word))
}

// An added check: {0, 1, 4} with n = 4.
fn added(rt: &impl Print) -> io::Result<()> {
    let mut words = [0u64; 4096];
    words[0] = 0x13;
    rank(rt, "k = 1", &words, 4, 0, 1)?;
    coded(rt, &words, 4, 0, 1, &[2], &mut [9; 4])
}

// No check, checks without bits, and a check for each bit.
fn ends(rt: &impl Print) -> io::Result<()> {
    let mut words = [0u64; 4096];
    rank(rt, "no check", &words, 3, 0, 0)?;
    rank(rt, "empty checks", &words, 120, 120, 0)?;
    let mut word = [9; 3];
    coded(rt, &words, 3, 0, 0, &[1, 0, 1], &mut word)?;
    words[0] = 0x7;
    words[8] = 0x6;
    words[16] = 0x4;
    rank(rt, "full", &words, 3, 3, 0)?;
    coded(rt, &words, 3, 3, 0, &[], &mut word)
}

fn marks(
    rt: &impl Print,
    head: &str,
    words: &[u64],
    n: usize,
    m: usize,
    k: usize,
    set: &mut [u8],
) -> io::Result<()> {
    match message_bits::message_bits(words, n, m, k, set) {
        Ok(()) => println!(rt; "{head}: marks {}", Bytes(set)),
        Err(r) => println!(rt; "{head}: refused {}", Why(r)),
    }
}

fn marks_of_cases(rt: &impl Print) -> io::Result<()> {
    let j = cases::a();
    marks(rt, "J", &j, 7, 3, 0, &mut [9; 7])?;
    let mut long = [9; 23];
    marks(rt, "L", &cases::l(), 23, 23, 0, &mut long)?;
    marks(rt, "J, 23 bytes", &j, 7, 3, 0, &mut long)?;
    println!(rt; "{}", Bytes(&long))
}

// The checks {0, 1, 2} and {0, 1, 3}, which are [A|I]; no check; and an added check, {0, 1, 4}.
fn marks_of_four(rt: &impl Print) -> io::Result<()> {
    let mut words = [0u64; 4096];
    let mut four = [9; 4];
    marks(rt, "no check", &words, 4, 0, 0, &mut four)?;
    words[0] = 0x7;
    words[8] = 0xb;
    marks(rt, "[A|I]", &words, 4, 2, 0, &mut four)?;
    words[0] = 0x13;
    words[8] = 0;
    marks(rt, "k = 1", &words, 4, 0, 1, &mut four)?;
    println!(rt; "{}", Bytes(&four))
}

fn main(rt: HostRuntime) -> io::Result<()> {
    rank(&rt, "J", &cases::a(), 7, 3, 0)?;
    for message in 0..16 {
        four(&rt, message)?;
    }
    let l = cases::l();
    rank(&rt, "L", &l, 23, 23, 0)?;
    golay(&rt)?;
    rank(&rt, "L, m = 22", &l, 23, 22, 0)?;
    rank(&rt, "L, n = 22", &l, 22, 23, 0)?;
    rank(&rt, "L, k = 1", &l, 23, 22, 1)?;
    bad_bytes(&rt)?;
    bad_words(&rt)?;
    added(&rt)?;
    ends(&rt)?;
    marks_of_cases(&rt)?;
    marks_of_four(&rt)
}
