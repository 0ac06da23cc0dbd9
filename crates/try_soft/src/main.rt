// Min-sum rounds on words of sure, soft and erased bits, and bad input. A line has the case, what the call answers, and the bits afterwards: 0 or 1,
// ? for erased, x for a byte above 3, and of a soft bit the eight hexadecimal digits of its float.
#![tactic(auto)]

use samples::say::{Digits, Why};
use std::{fmt, io};

// The bits of a word, with a space before each.
#[derive(Clone, Copy)]
struct Bits<'a> {
    word: &'a [u8],
    floats: &'a [f32],
}

impl<'a> fmt::Display for Bits<'a> {
    fn fmt<W: fmt::Write>(&self, f: &mut fmt::Formatter<W>) -> fmt::Result {
        for (byte, float) in self.word.iter().zip(self.floats) {
            match *byte {
                0 => write!(f, " 0")?,
                1 => write!(f, " 1")?,
                2 => write!(f, " ?")?,
                3 => write!(f, " {}", Digits(*float))?,
                _ => write!(f, " x")?,
            }
        }
        Ok(())
    }
}

fn line(
    rt: &impl Print,
    head: &str,
    words: &[u64],
    n: usize,
    m: usize,
    k: usize,
    rounds: usize,
    word: &mut [u8],
    floats: &mut [f32],
) -> io::Result<()> {
    let mut bytes = [0u8; 65536];
    let mut values = [0.0f32; 65536];
    let answer = min_sum::min_sum(
        words,
        n,
        m,
        k,
        rounds,
        word,
        floats,
        &mut bytes,
        &mut values,
    );
    print!(rt; "{head}, rounds {rounds}: ")?;
    match answer {
        Ok(()) => print!(rt; "made")?,
        Err(why) => print!(rt; "REFUSED {}", Why(why))?,
    }
    println!(rt; "{}", Bits { word, floats })
}

fn a_words(rt: &impl Print, words: &[u64]) -> io::Result<()> {
    let mut soft = [3, 3, 3, 3, 3, 3, 3];
    let mut f = [1.5f32, -2.0, 3.25, 0.5, -0.25, 8.0, 4.0];
    line(rt, "A, soft", words, 7, 3, 0, 1, &mut soft, &mut f)?;
    line(rt, "A, what is left", words, 7, 3, 0, 3, &mut soft, &mut f)?;
    let mut mixed = [2, 2, 0, 3, 1, 3, 3];
    let mut g = [7.0f32, 7.0, 7.0, -0.75, 7.0, 0.1, -0.3];
    line(rt, "A, mixed", words, 7, 3, 0, 1, &mut mixed, &mut g)?;
    line(
        rt,
        "A, mixed, further",
        words,
        7,
        3,
        0,
        20,
        &mut mixed,
        &mut g,
    )
}

fn a_edges(rt: &impl Print, words: &[u64]) -> io::Result<()> {
    let mut zero = [3, 3, 3, 3, 3, 2, 3];
    let mut z = [-0.0f32, 0.0, -1.0, 0.0, -0.0, 9.0, -3.0];
    line(rt, "A, zeros", words, 7, 3, 0, 2, &mut zero, &mut z)?;
    let mut large = [3, 3, 3, 3, 3, 3, 3];
    let mut l = [
        1048576.0f32,
        -1048576.0,
        1048575.0,
        1048576.0,
        -1048576.0,
        1048576.0,
        -0.5,
    ];
    line(rt, "A, at the limit", words, 7, 3, 0, 9, &mut large, &mut l)
}

fn a_rounds(rt: &impl Print, words: &[u64]) -> io::Result<()> {
    let mut w = [3, 0, 2, 1, 3, 3, 0];
    let mut f = [1.0f32, 0.0, 0.0, 0.0, -1.0, 0.5, 0.0];
    line(rt, "A", words, 7, 3, 0, 0, &mut w, &mut f)?;
    line(rt, "A", words, 7, 3, 0, 513, &mut w, &mut f)?;
    f[1] = f32::INFINITY - f32::INFINITY;
    f[2] = -f32::INFINITY;
    line(
        rt,
        "A, floats that do not count",
        words,
        7,
        3,
        0,
        1,
        &mut w,
        &mut f,
    )
}

fn a_wrong(rt: &impl Print, words: &[u64]) -> io::Result<()> {
    let mut v = [3, 0, 2, 1, 3, 3, 0];
    let mut f = [2.0f32, 0.0, 0.0, 0.0, -1048576.125, 0.0, 0.0];
    f[5] = f32::INFINITY;
    line(rt, "A, two wrong floats", words, 7, 3, 0, 1, &mut v, &mut f)?;
    v[5] = 4;
    line(rt, "A, a wrong byte", words, 7, 3, 0, 512, &mut v, &mut f)?;
    let mut short = [0.0f32; 6];
    line(
        rt,
        "A, n - 1 floats",
        words,
        7,
        3,
        0,
        512,
        &mut v,
        &mut short,
    )?;
    let few = [0u64; 4095];
    line(rt, "4,095 words", &few, 7, 3, 0, 0, &mut v, &mut short)
}

fn case_a(rt: &impl Print) -> io::Result<()> {
    let words = samples::cases::a();
    a_words(rt, &words)?;
    a_edges(rt, &words)?;
    a_rounds(rt, &words)?;
    a_wrong(rt, &words)
}

// D, whose word ends as peeling ends.
fn case_d(rt: &impl Print) -> io::Result<()> {
    let words = samples::cases::d();
    let mut w = [2, 2, 2, 1, 1, 1, 1, 2];
    let mut f = [-1.0f32; 8];
    line(
        rt,
        "D, sure and erased",
        &words,
        7,
        3,
        1,
        512,
        &mut w,
        &mut f,
    )?;
    let mut v = [2, 2, 2, 3, 3, 1, 1, 2];
    let mut g = [0.0f32, 0.0, 0.0, -2.5, -1.25, 0.0, 0.0, 0.0];
    line(rt, "D, soft", &words, 7, 3, 1, 4, &mut v, &mut g)
}

// {2} {0,2} and an empty check: bits 1 and 3 are in no check, and check 0 has one bit, to which it sends sure 0.
fn few_bits(rt: &impl Print) -> io::Result<()> {
    let mut words = [0u64; 4096];
    words[0] = 0b100;
    words[8] = 0b101;
    let mut w = [3, 3, 3, 2];
    let mut f = [-4.0f32, -0.0, 1.0, 0.0];
    line(rt, "a check of one bit", &words, 4, 3, 0, 2, &mut w, &mut f)?;
    let none = [0u64; 4096];
    let mut v = [3, 1];
    let mut g = [-0.0f32, 3.0];
    line(rt, "no checks", &none, 2, 0, 0, 512, &mut v, &mut g)
}

// Soft bits near the zero codeword of L, three of them false.
fn case_l(rt: &impl Print) -> io::Result<()> {
    let words = samples::cases::l();
    let mut w = [3u8; 23];
    let mut f = [1.25f32; 23];
    f[3] = -0.5;
    f[7] = 0.125;
    f[11] = -1.0;
    f[12] = 2.5;
    f[20] = -0.0625;
    line(rt, "L", &words, 23, 23, 0, 1, &mut w, &mut f)?;
    line(rt, "L, further", &words, 23, 23, 0, 40, &mut w, &mut f)
}

fn main(rt: HostRuntime) -> io::Result<()> {
    case_a(&rt)?;
    case_d(&rt)?;
    few_bits(&rt)?;
    case_l(&rt)
}
