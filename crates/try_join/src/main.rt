// Joining document 01's matrices, a matrix with itself, matrices that come to 120 checks and to more, and bad input. The third words are ones before. A
// line has the pair, the number of checks and the two words in use of the first seven, or the refusal, and a digest of the third words afterwards.
#![tactic(auto)]

ghost use Rattle.std.specs.Prelude.{◌≤◌, ◌<◌};

use samples::say::Why;
use samples::{cases, words};
use std::{fmt, io};

// The two words in use of each check, behind a space.
#[derive(Clone, Copy)]
struct Checks<'a>(&'a [u64]);

impl<'a> fmt::Display for Checks<'a> {
    fn fmt<W: fmt::Write>(&self, f: &mut fmt::Formatter<W>) -> fmt::Result {
        for check in self.0.chunks(8) {
            if let [low, high, ..] = check {
                write!(f, " {low}:{high}")?;
            }
        }
        Ok(())
    }
}

// A number that hangs on every word and on its place.
fn digest(words: &[u64]) -> u64 {
    let mut acc: u64 = 0;
    for x in words {
        acc = (acc * 31 + *x % 1000003) % 1000003;
    }
    acc
}

fn show(
    rt: &impl Print,
    words1: &[u64],
    n1: usize,
    m1: usize,
    k1: usize,
    words2: &[u64],
    n2: usize,
    m2: usize,
    k2: usize,
    words3: &mut [u64],
) -> io::Result<()> {
    match join::join(words1, n1, m1, k1, words2, n2, m2, k2, words3) {
        Ok(checks) => {
            let shown = checks.min(7).min(words3.len() / 8);
            print!(rt; ": checks {checks}{}", Checks(&words3[..shown * 8]))?;
        }
        Err(r) => print!(rt; ": refused {}", Why(r))?,
    }
    println!(rt; ", digest {}", digest(words3))
}

// The pair, with so many third words.
fn show_with(
    rt: &impl Print,
    words1: &[u64],
    n1: usize,
    m1: usize,
    k1: usize,
    words2: &[u64],
    n2: usize,
    m2: usize,
    k2: usize,
    count: usize,
) -> io::Result<()>
    requires { count ≤ 4097 }
{
    let mut words3 = words::ones();
    let third = &mut words3[..count];
    show(rt, words1, n1, m1, k1, words2, n2, m2, k2, third)
}

// Two matrices with k = 0.
fn given(
    rt: &impl Print,
    head: &str,
    words1: &[u64],
    n1: usize,
    m1: usize,
    words2: &[u64],
    n2: usize,
    m2: usize,
) -> io::Result<()> {
    print!(rt; "{head}")?;
    show_with(rt, words1, n1, m1, 0, words2, n2, m2, 0, 4096)
}

fn a_and_c(rt: &impl Print) -> io::Result<()> {
    let a = cases::a();
    let c = cases::c();
    given(rt, "A and C", &a, 7, 3, &c, 7, 3)?;
    given(rt, "C and A", &c, 7, 3, &a, 7, 3)?;
    given(rt, "C and C", &c, 7, 3, &c, 7, 3)
}

// C and no checks; E with itself and no checks.
fn none_and_twice(rt: &impl Print) -> io::Result<()> {
    let none = [0u64; 4096];
    let c = cases::c();
    given(rt, "C and no check", &c, 7, 3, &none, 7, 0)?;
    given(rt, "no check and C", &none, 7, 0, &c, 7, 3)?;
    let e = cases::e();
    given(rt, "E and E", &e, 3, 2, &e, 3, 2)?;
    given(rt, "no check and E", &none, 3, 0, &e, 3, 2)?;
    given(rt, "no check and no check", &none, 1, 0, &none, 1, 0)
}

// `count` checks of 120 bits from number `from` on, no two of which are equal.
fn different(from: usize, count: usize) -> [u64; 4096]
    requires { (from ≤ 500) × (count ≤ 120) }
{
    let mut words = [0u64; 4096];
    for c in 0..count {
        let x = (from + c) as u64;
        words[c * 8] = x * 1000003 + 1;
        words[c * 8 + 1] = 0x00ff_ffff_ffff_ffff - x;
    }
    words
}

// So many checks from these numbers on, on either side.
fn many(
    rt: &impl Print,
    head: &str,
    from1: usize,
    m1: usize,
    from2: usize,
    m2: usize,
) -> io::Result<()>
    requires { (from1 ≤ 500) × (m1 ≤ 120) × (from2 ≤ 500) × (m2 ≤ 120) }
{
    let words1 = different(from1, m1);
    let words2 = different(from2, m2);
    given(rt, head, &words1, 120, m1, &words2, 120, m2)
}

fn to_120(rt: &impl Print) -> io::Result<()> {
    many(rt, "60 and 60", 0, 60, 60, 60)?;
    many(rt, "60 and 61, one of them in both", 0, 60, 59, 61)?;
    many(rt, "120 and the same", 0, 120, 0, 120)?;
    many(rt, "119 and 120", 0, 119, 0, 120)?;
    many(rt, "60 and 61", 0, 60, 60, 61)?;
    many(rt, "120 and another", 0, 120, 120, 1)?;
    many(rt, "none and 120", 0, 0, 7, 120)
}

// A's first two checks lent with other numbers of bits.
fn different_lengths(rt: &impl Print) -> io::Result<()> {
    let mut words = [0u64; 4096];
    words[0] = 0b1011001;
    words[8] = 0b1101010;
    given(rt, "n 7 and 8", &words, 7, 2, &words, 8, 2)?;
    given(rt, "n 120 and 119", &words, 120, 2, &words, 119, 2)?;
    given(rt, "n 0 and 7", &words, 0, 2, &words, 7, 2)?;
    given(rt, "n 6 and 7", &words, 6, 2, &words, 7, 2)?;
    given(rt, "n 6, and m 121", &words, 6, 2, &words, 7, 121)
}

// Any two matrices of three checks.
fn line(
    rt: &impl Print,
    head: &str,
    words1: &[u64],
    n1: usize,
    k1: usize,
    words2: &[u64],
    n2: usize,
    k2: usize,
) -> io::Result<()> {
    print!(rt; "{head}")?;
    show_with(rt, words1, n1, 3, k1, words2, n2, 3, k2, 4096)
}

// B, which is A orthogonalised.
fn extended(rt: &impl Print) -> io::Result<()> {
    let a = cases::a();
    let b = cases::b();
    line(rt, "B and A", &b, 7, 1, &a, 7, 0)?;
    line(rt, "A with n 8, and B", &a, 8, 0, &b, 7, 1)
}

// B with a bit less in its added check.
fn rule_a_broken(rt: &impl Print) -> io::Result<()> {
    let a = cases::a();
    let mut b = cases::b();
    b[24] = 0b1001000;
    line(rt, "rule A broken, and A", &b, 7, 1, &a, 7, 0)?;
    line(rt, "rule A broken, and A with n 0", &b, 7, 1, &a, 0, 0)?;
    line(rt, "rule A broken, and A with n 6", &b, 7, 1, &a, 6, 0)
}

fn lengths(rt: &impl Print) -> io::Result<()> {
    let short = [0u64; 4095];
    let words = [0u64; 4096];
    given(rt, "n 0, and 4,095 words", &words, 0, 0, &short, 7, 0)?;
    given(rt, "4,095 words, and n 0", &short, 7, 0, &words, 0, 0)?;
    print!(rt; "no third words")?;
    show_with(rt, &words, 7, 0, 0, &words, 7, 0, 0, 0)?;
    print!(rt; "4,095 third words, and n 0")?;
    show_with(rt, &words, 0, 0, 0, &words, 7, 0, 0, 4095)?;
    print!(rt; "4,097 third words")?;
    show_with(rt, &words, 7, 0, 0, &words, 7, 0, 0, 4097)
}

fn main(rt: HostRuntime) -> io::Result<()> {
    a_and_c(&rt)?;
    none_and_twice(&rt)?;
    to_120(&rt)?;
    different_lengths(&rt)?;
    extended(&rt)?;
    rule_a_broken(&rt)?;
    lengths(&rt)
}
