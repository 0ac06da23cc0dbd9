// Acceptance on good and bad matrices: each line is a case and the number of its cause, 0 where it is accepted.
#![tactic(auto)]

ghost use Rattle.std.specs.Prelude.{◌<◌};

use samples::say::Why;
use std::io;

fn line(
    rt: &impl Print,
    head: &str,
    words: &[u64],
    n: usize,
    m: usize,
    k: usize,
) -> io::Result<()> {
    match matrix::accept(words, n, m, k) {
        Ok(()) => println!(rt; "{head}0"),
        Err(why) => println!(rt; "{head}{}", Why(why)),
    }
}

fn lengths(rt: &impl Print) -> io::Result<()> {
    let none: [u64; 0] = [];
    line(rt, "no words: ", &none, 1, 0, 0)?;
    let short = [0u64; 4095];
    line(rt, "4,095 words: ", &short, 1, 0, 0)?;
    let long = [0u64; 4097];
    line(rt, "4,097 words: ", &long, 1, 0, 0)
}

fn ranges(rt: &impl Print, words: &[u64]) -> io::Result<()> {
    line(rt, "n = 0: ", words, 0, 0, 0)?;
    line(rt, "n = 121: ", words, 121, 0, 0)?;
    line(rt, "m = 121: ", words, 1, 121, 0)?;
    line(rt, "k = 393: ", words, 1, 0, 393)?;
    line(rt, "n huge: ", words, 0xffff_ffff_ffff_ffff, 0, 1)?;
    line(rt, "m huge: ", words, 1, 0xffff_ffff_ffff_ffff, 1)?;
    line(rt, "k huge: ", words, 1, 0, 0xffff_ffff_ffff_ffff)?;
    line(rt, "no check: ", words, 120, 0, 0)?;
    line(rt, "120 empty checks: ", words, 120, 120, 0)
}

// One word of the matrix set.
fn with_word(
    rt: &impl Print,
    head: &str,
    i: usize,
    w: u64,
    n: usize,
    m: usize,
    k: usize,
) -> io::Result<()>
    requires { i < 4096 }
{
    let mut words = [0u64; 4096];
    words[i] = w;
    line(rt, head, &words, n, m, k)
}

fn outside(rt: &impl Print) -> io::Result<()> {
    with_word(rt, "bit n - 1: ", 0, 0b1, 1, 1, 0)?;
    with_word(rt, "bit n: ", 0, 0b10, 1, 1, 0)?;
    with_word(rt, "bit 63 of 64: ", 0, 1 << 63, 64, 1, 0)?;
    with_word(rt, "bit 64 of 64: ", 1, 1, 64, 1, 0)?;
    with_word(rt, "bit 119 of 120: ", 1, 1 << 55, 120, 1, 0)?;
    with_word(rt, "bit 120 of 120: ", 1, 1 << 56, 120, 1, 0)?;
    with_word(rt, "check m: ", 8, 1, 1, 1, 0)?;
    with_word(rt, "the last word: ", 4095, 1 << 63, 120, 120, 0)
}

// The first two checks of the matrix set.
fn with_checks(
    rt: &impl Print,
    head: &str,
    first: u64,
    second: u64,
    n: usize,
    m: usize,
    k: usize,
) -> io::Result<()> {
    let mut words = [0u64; 4096];
    words[0] = first;
    words[8] = second;
    line(rt, head, &words, n, m, k)
}

fn rule_a(rt: &impl Print) -> io::Result<()> {
    with_checks(rt, "{0,1,4}: ", 0b10011, 0, 4, 0, 1)?;
    with_checks(rt, "weight 2: ", 0b10001, 0, 4, 0, 1)?;
    with_checks(rt, "weight 4: ", 0b10111, 0, 4, 0, 1)?;
    with_checks(rt, "its own bit missing: ", 0b111, 0, 4, 0, 1)?;
    with_checks(rt, "a bit above its own: ", 0b110001, 0b101010, 4, 0, 2)?;
    with_checks(
        rt,
        "a pair shared with a given check: ",
        0b111,
        0b10011,
        4,
        1,
        1,
    )?;
    with_checks(
        rt,
        "a bit shared with a given check: ",
        0b101,
        0b10011,
        4,
        1,
        1,
    )?;
    with_checks(
        rt,
        "a pair shared with an added check: ",
        0b10011,
        0b100011,
        4,
        0,
        2,
    )?;
    with_checks(
        rt,
        "its bit in the next added check: ",
        0b10011,
        0b110100,
        4,
        0,
        2,
    )?;
    with_checks(rt, "{0,1,4,5} {2,3,5}: ", 0b110011, 0b101100, 4, 0, 2)
}

fn case_b(rt: &impl Print) -> io::Result<()> {
    let words = samples::cases::b();
    line(rt, "B, k = 1: ", &words, 7, 3, 1)?;
    line(rt, "B, k = 0: ", &words, 7, 3, 0)?;
    line(rt, "B, k = 2: ", &words, 7, 3, 2)
}

fn main(rt: HostRuntime) -> io::Result<()> {
    lengths(&rt)?;
    let words = [0u64; 4096];
    ranges(&rt, &words)?;
    outside(&rt)?;
    rule_a(&rt)?;
    case_b(&rt)
}
