// Records loaded and written: each line is a case and its reply.
#![tactic(auto)]

mod build;
mod say;

ghost use Rattle.std.specs.Prelude.{◌≡◌, ◌<◌, ◌≤◌, length};

use crate::build::full;
use crate::say::{Loaded, Place, Written};
use record::Sizes;
use samples::words::are_ones;
use std::io;

// The records of cases A, C, E, F and I, each in its first form and in its second.
const A: [u32; 17] = [
    0x1000_0307,
    0x2000_0004,
    0x3000_0000,
    0x3000_0003,
    0x3000_0004,
    0x3000_0006,
    0x2000_0004,
    0x3000_0001,
    0x3000_0003,
    0x3000_0005,
    0x3000_0006,
    0x2000_0004,
    0x3000_0002,
    0x3000_0004,
    0x3000_0005,
    0x3000_0006,
    0xf000_0000,
];

const A2: [u32; 17] = [
    0x4000_0307,
    0x2000_0004,
    0x3000_0000,
    0x3000_0003,
    0x3000_0004,
    0x3000_0006,
    0x2000_0104,
    0x3000_0001,
    0x3000_0003,
    0x3000_0005,
    0x3000_0006,
    0x2000_0204,
    0x3000_0002,
    0x3000_0004,
    0x3000_0005,
    0x3000_0006,
    0xf000_0000,
];

const C: [u32; 16] = [
    0x1000_0307,
    0x2000_0004,
    0x3000_0000,
    0x3000_0001,
    0x3000_0002,
    0x3000_0003,
    0x2000_0004,
    0x3000_0000,
    0x3000_0001,
    0x3000_0004,
    0x3000_0005,
    0x2000_0003,
    0x3000_0000,
    0x3000_0002,
    0x3000_0006,
    0xf000_0000,
];

const C2: [u32; 16] = [
    0x4000_0307,
    0x2000_0004,
    0x3000_0000,
    0x3000_0001,
    0x3000_0002,
    0x3000_0003,
    0x2000_0104,
    0x3000_0000,
    0x3000_0001,
    0x3000_0004,
    0x3000_0005,
    0x2000_0203,
    0x3000_0000,
    0x3000_0002,
    0x3000_0006,
    0xf000_0000,
];

const E: [u32; 10] = [
    0x1000_0203,
    0x2000_0003,
    0x3000_0000,
    0x3000_0001,
    0x3000_0002,
    0x2000_0003,
    0x3000_0000,
    0x3000_0001,
    0x3000_0002,
    0xf000_0000,
];

const E2: [u32; 10] = [
    0x4000_0203,
    0x2000_0003,
    0x3000_0000,
    0x3000_0001,
    0x3000_0002,
    0x2000_0103,
    0x3000_0000,
    0x3000_0001,
    0x3000_0002,
    0xf000_0000,
];

const F: [u32; 2] = [0x1000_0002, 0xf000_0000];

const F2: [u32; 2] = [0x4000_0002, 0xf000_0000];

const I: [u32; 7] = [
    0x1000_0202,
    0x2000_0001,
    0x3000_0000,
    0x2000_0002,
    0x3000_0000,
    0x3000_0001,
    0xf000_0000,
];

const I2: [u32; 7] = [
    0x4000_0202,
    0x2000_0001,
    0x3000_0000,
    0x2000_0102,
    0x3000_0000,
    0x3000_0001,
    0xf000_0000,
];

// E with its two splits, in the third form, and C without any.
const E3: [u32; 12] = [
    0x5000_0203,
    0x2000_0003,
    0x3000_0000,
    0x3000_0001,
    0x3000_0002,
    0x2000_0103,
    0x3000_0000,
    0x3000_0001,
    0x3000_0002,
    0x6000_0200,
    0x6000_0602,
    0xf000_0000,
];

const C3: [u32; 16] = [
    0x5000_0307,
    0x2000_0004,
    0x3000_0000,
    0x3000_0001,
    0x3000_0002,
    0x3000_0003,
    0x2000_0104,
    0x3000_0000,
    0x3000_0001,
    0x3000_0004,
    0x3000_0005,
    0x2000_0203,
    0x3000_0000,
    0x3000_0002,
    0x3000_0006,
    0xf000_0000,
];

// Words that are wrong at most places: other kinds, counts above n, other check numbers, bits not below n, unnamed bits set.
const WRONG: [u32; 31] = [
    0,
    0x1000_0307,
    0x1000_0079,
    0x1001_0007,
    0x4000_0307,
    0x4000_0079,
    0x4001_0007,
    0x2000_0000,
    0x2000_0008,
    0x2000_0104,
    0x2000_0103,
    0x2000_0204,
    0x2000_0203,
    0x2001_0004,
    0x3000_0000,
    0x3000_0006,
    0x3000_0007,
    0x3800_0000,
    0x3000_0100,
    0x5000_0307,
    0x6000_0000,
    0x7000_0000,
    0x8000_0000,
    0x9000_0000,
    0xa000_0000,
    0xb000_0000,
    0xc000_0000,
    0xd000_0000,
    0xe000_0000,
    0xf000_0000,
    0xf000_0001,
];

// Loads a record into words that are all ones.
fn load_case(rt: &impl Print, head: &str, source: &[u32]) -> io::Result<()> {
    let mut words = [u64::MAX; 4096];
    let loaded = Loaded(record::load(source, &mut words));
    if are_ones(&words) {
        println!(rt; "{head}{loaded}, words left")
    } else {
        println!(rt; "{head}{loaded}")
    }
}

// Loads a record of any form, writes its matrix and says whether that gives the record due.
fn round_trip(rt: &impl Print, head: &str, source: &[u32], due: &[u32]) -> io::Result<()> {
    let mut words = [u64::MAX; 4096];
    let loaded = record::load(source, &mut words);
    print!(rt; "{head}{}", Loaded(loaded))?;
    if let Ok(Sizes { n, m, k }) = loaded {
        write_back(rt, due, &words, n, m, k)?;
    }
    println!(rt)
}

// Writes a matrix and compares the record with the one due.
fn write_back(
    rt: &impl Print,
    due: &[u32],
    words: &[u64],
    n: usize,
    m: usize,
    k: usize,
) -> io::Result<()> {
    let mut target = [u32::MAX; 14523];
    let written = record::write(words, n, m, k, &mut target);
    print!(rt; ", {}", Written(written))?;
    if written == Ok(due.len()) && target.starts_with(due) {
        print!(rt; ", as due")?;
    }
    Ok(())
}

// Writes a matrix, loads what was written and compares the words.
fn write_case(
    rt: &impl Print,
    head: &str,
    words: &[u64],
    n: usize,
    m: usize,
    k: usize,
) -> io::Result<()> {
    let mut target = [u32::MAX; 14523];
    let written = record::write(words, n, m, k, &mut target);
    print!(rt; "{head}{}", Written(written))?;
    if let Ok(used) = written {
        load_back(rt, &target, used, words)?;
    }
    if target[14522] == u32::MAX {
        print!(rt; ", the last word left")?;
    }
    println!(rt)
}

// Loads the first `used` words of a record and compares the matrix's words with those that were written.
fn load_back(rt: &impl Print, target: &[u32], used: usize, words: &[u64]) -> io::Result<()> {
    let mut back = [u64::MAX; 4096];
    if target.len() < used {
        return Ok(());
    }
    print!(rt; ", {}", Loaded(record::load(&target[..used], &mut back)))?;
    if words == back.as_slice() {
        print!(rt; ", the same words")?;
    }
    Ok(())
}

// The records of the bench's matrices with k = 0, of both forms, and an empty record.
fn bench_a_and_c(rt: &impl Print) -> io::Result<()> {
    round_trip(rt, "A: ", &A, &A2)?;
    round_trip(rt, "A, second form: ", &A2, &A2)?;
    round_trip(rt, "C: ", &C, &C2)?;
    round_trip(rt, "C, second form: ", &C2, &C2)
}

fn bench_e_and_f(rt: &impl Print) -> io::Result<()> {
    round_trip(rt, "E: ", &E, &E2)?;
    round_trip(rt, "E, second form: ", &E2, &E2)?;
    round_trip(rt, "F: ", &F, &F2)?;
    round_trip(rt, "F, second form: ", &F2, &F2)
}

fn bench_i_and_k(rt: &impl Print) -> io::Result<()> {
    round_trip(rt, "I: ", &I, &I2)?;
    round_trip(rt, "I, second form: ", &I2, &I2)?;
    let none: [u32; 0] = [];
    round_trip(rt, "K: ", &none, &none)
}

// First words at the ends of their ranges, and other lengths.
fn firsts(rt: &impl Print) -> io::Result<()> {
    load_case(rt, "n = 120: ", &[0x1000_0078, 0xf000_0000])?;
    load_case(rt, "n = 121: ", &[0x1000_0079, 0xf000_0000])?;
    load_case(rt, "n = 0: ", &[0x1000_0000, 0xf000_0000])?;
    load_case(rt, "m = 121: ", &[0x1000_7901, 0xf000_0000])?;
    load_case(rt, "only the first word: ", &[0x1000_0001])
}

// Checks and ends that are not as the first word has them.
fn counts(rt: &impl Print) -> io::Result<()> {
    load_case(
        rt,
        "n = 3, count 3, first bit 2: ",
        &[
            0x1000_0103,
            0x2000_0003,
            0x3000_0002,
            0x3000_0002,
            0xf000_0000,
        ],
    )?;
    load_case(
        rt,
        "equal bits: ",
        &[
            0x1000_0103,
            0x2000_0002,
            0x3000_0001,
            0x3000_0001,
            0xf000_0000,
        ],
    )?;
    load_case(
        rt,
        "a check too many: ",
        &[0x1000_0102, 0x2000_0000, 0x2000_0000, 0xf000_0000],
    )?;
    load_case(
        rt,
        "a check too few: ",
        &[0x1000_0202, 0x2000_0000, 0xf000_0000],
    )?;
    load_case(
        rt,
        "a word after the end: ",
        &[0x1000_0002, 0xf000_0000, 0xf000_0000],
    )
}

// Check numbers: of the second form, in the first form, and none in the second form.
fn numbers(rt: &impl Print) -> io::Result<()> {
    load_case(
        rt,
        "first form, check 1 numbered: ",
        &[0x1000_0203, 0x2000_0000, 0x2000_0100, 0xf000_0000],
    )?;
    load_case(
        rt,
        "second form, check 1 not numbered: ",
        &[0x4000_0203, 0x2000_0000, 0x2000_0000, 0xf000_0000],
    )?;
    load_case(
        rt,
        "second form, numbers from 1: ",
        &[0x4000_0203, 0x2000_0100, 0x2000_0200, 0xf000_0000],
    )?;
    load_case(
        rt,
        "second form, a number skipped: ",
        &[0x4000_0203, 0x2000_0000, 0x2000_0200, 0xf000_0000],
    )
}

// The second form's ends.
fn seconds(rt: &impl Print) -> io::Result<()> {
    load_case(
        rt,
        "second form, bit 16 of a kind 2 word: ",
        &[0x4000_0103, 0x2001_0000, 0xf000_0000],
    )?;
    load_case(
        rt,
        "second form, a word after the end: ",
        &[0x4000_0002, 0xf000_0000, 0xf000_0000],
    )?;
    load_case(rt, "second form, n = 120: ", &[0x4000_0078, 0xf000_0000])?;
    load_case(rt, "second form, n = 121: ", &[0x4000_0079, 0xf000_0000])?;
    load_case(rt, "second form, m = 121: ", &[0x4000_7901, 0xf000_0000])?;
    load_case(
        rt,
        "another kind of first word: ",
        &[0x6000_0002, 0xf000_0000],
    )
}

// E with its splits, with one word replaced.
fn third_case(rt: &impl Print, head: &str, at: usize, word: u32) -> io::Result<()>
    requires { at < 12 }
{
    let mut source = E3;
    source[at] = word;
    load_case(rt, head, &source)
}

// Splits: in the third form, in the others, before the checks are complete, after the end.
fn splits(rt: &impl Print) -> io::Result<()> {
    round_trip(rt, "E with its splits: ", &E3, &E3)?;
    round_trip(rt, "C, third form without splits: ", &C3, &C2)?;
    third_case(rt, "in the second form: ", 0, 0x4000_0203)?;
    third_case(rt, "in the first form: ", 0, 0x1000_0203)?;
    third_case(rt, "before check 1: ", 5, 0x6000_0200)
}

// Each fault of the first split,
fn first_splits(rt: &impl Print) -> io::Result<()> {
    third_case(rt, "first split, bits exchanged: ", 9, 0x6000_0001)?;
    third_case(rt, "first split, equal bits: ", 9, 0x6000_0201)?;
    third_case(rt, "first split, bit 3 is not there: ", 9, 0x6000_0600)?;
    third_case(rt, "first split, bit 18 set: ", 9, 0x6004_0200)?;
    third_case(rt, "first split, bit 27 set: ", 9, 0x6800_0200)?;
    third_case(rt, "first split, another pair: ", 9, 0x6000_0400)
}

// and of the last.
fn last_splits(rt: &impl Print) -> io::Result<()> {
    third_case(rt, "last split, bits exchanged: ", 10, 0x6000_0403)?;
    third_case(rt, "last split, bit 4 is not there: ", 10, 0x6000_0802)?;
    third_case(rt, "last split, share 1: ", 10, 0x6000_0200)?;
    third_case(rt, "last split, share 0: ", 10, 0x6000_0400)?;
    third_case(rt, "last split, bit 18 set: ", 10, 0x6004_0602)
}

fn ends_of_splits(rt: &impl Print) -> io::Result<()> {
    third_case(rt, "no last split: ", 10, 0xf000_0000)?;
    third_case(rt, "a third split, and no end: ", 11, 0x6000_0803)?;
    load_case(
        rt,
        "a split after the end: ",
        &[0x5000_0002, 0xf000_0000, 0x6000_0200],
    )?;
    load_case(
        rt,
        "no checks, a split: ",
        &[0x5000_0002, 0x6000_0200, 0xf000_0000],
    )
}

// Too short by one for E with its splits, and a matrix that no split made, with no room either.
fn short_thirds(rt: &impl Print) -> io::Result<()> {
    let mut words = [0u64; 4096];
    let source = E3;
    let _ = record::load(&source, &mut words);
    let mut short = [7u32; 11];
    let written = Written(record::write(&words, 3, 2, 2, &mut short));
    println!(rt; "E with its splits, one word short: {written}")?;
    let mut none: [u32; 0] = [];
    let mut alone = [0u64; 4096];
    alone[0] = 7;
    let written = Written(record::write(&alone, 2, 0, 1, &mut none));
    println!(rt; "no split made it, no room: {written}")
}

// The full record, with check 119 numbered otherwise, and with kind 1 in its first word.
fn last_numbers(rt: &impl Print, words: &[u64]) -> io::Result<()> {
    let mut target = [0u32; 14522];
    let _ = record::write(words, 120, 120, 0, &mut target);
    if target[14400] == 0x2000_7778 {
        println!(rt; "check 119 is opened at 14400")?;
    }
    target[14400] = 0x2000_7678;
    load_case(rt, "check 119 numbered 118: ", &target)?;
    target[14400] = 0x2000_7878;
    load_case(rt, "check 119 numbered 120: ", &target)?;
    target[14400] = 0x2000_7778;
    target[0] = 0x1000_7878;
    load_case(rt, "full, kind 1 first: ", &target)
}

// A record with one word replaced.
fn replaced(rt: &impl Print, record: &[u32; 16], at: usize, word: u32) -> io::Result<()>
    requires { at < 16 }
{
    let mut words = [0u64; 4096];
    let mut source = *record;
    source[at] = word;
    print!(rt; "{}", Place(record::load(&source, &mut words)))
}

fn replaced_line(rt: &impl Print, record: &[u32; 16], at: usize) -> io::Result<()>
    requires { at < 16 }
{
    print!(rt; "another word at {at}:")?;
    for word in WRONG {
        replaced(rt, record, at, word)?;
    }
    println!(rt)
}

fn all_replaced(rt: &impl Print, record: &[u32; 16]) -> io::Result<()> {
    for at in 0..16 {
        replaced_line(rt, record, at)?;
    }
    Ok(())
}

// The first words of a record.
fn cut(rt: &impl Print, source: &[u32], len: usize) -> io::Result<()>
    requires { len ≤ length source.now }
{
    let mut words = [0u64; 4096];
    print!(rt; "{}", Place(record::load(&source[..len], &mut words)))
}

fn all_cut(rt: &impl Print, source: &[u32]) -> io::Result<()>
    requires { length source.now ≡ 16 }
{
    for len in 0..17 {
        cut(rt, source, len)?;
    }
    Ok(())
}

// 4,095 words of a matrix.
fn lengths(rt: &impl Print) -> io::Result<()> {
    let mut words = [0u64; 4095];
    println!(rt;
        "into 4,095 words: {}",
        Loaded(record::load(&[0u32; 1], &mut words))
    )?;
    write_case(rt, "of 4,095 words: ", &words, 1, 0, 0)
}

// Lent records that are one word short and exact.
fn rooms(rt: &impl Print, words: &[u64]) -> io::Result<()> {
    let mut short = [0u32; 14521];
    print!(rt;
        "one word short: {}",
        Written(record::write(words, 120, 120, 0, &mut short))
    )?;
    if short[0] == 0 {
        print!(rt; ", the first word left")?;
    }
    println!(rt)?;
    let mut exact = [0u32; 14522];
    println!(rt;
        "exact: {}",
        Written(record::write(words, 120, 120, 0, &mut exact))
    )?;
    load_case(rt, "14,522 words: ", &exact)
}

// The full record with one word more.
fn too_long(rt: &impl Print, words: &[u64]) -> io::Result<()> {
    let mut target = [u32::MAX; 14523];
    let _ = record::write(words, 120, 120, 0, &mut target);
    load_case(rt, "14,523 words: ", &target)
}

// One word of a matrix set.
fn with_word(rt: &impl Print, head: &str, w: u64, n: usize, m: usize, k: usize) -> io::Result<()> {
    let mut words = [0u64; 4096];
    words[0] = w;
    write_case(rt, head, &words, n, m, k)
}

fn large(rt: &impl Print) -> io::Result<()> {
    let l = samples::cases::l();
    write_case(rt, "L: ", &l, 23, 23, 0)?;
    let all = full();
    write_case(rt, "full: ", &all, 120, 120, 0)?;
    rooms(rt, &all)?;
    too_long(rt, &all)?;
    last_numbers(rt, &all)
}

fn faults(rt: &impl Print) -> io::Result<()> {
    firsts(rt)?;
    counts(rt)?;
    numbers(rt)?;
    seconds(rt)?;
    splits(rt)?;
    first_splits(rt)?;
    last_splits(rt)?;
    ends_of_splits(rt)?;
    short_thirds(rt)
}

fn replaced_and_cut(rt: &impl Print) -> io::Result<()> {
    println!(rt; "C with")?;
    all_replaced(rt, &C)?;
    println!(rt; "C, second form, with")?;
    all_replaced(rt, &C2)?;
    print!(rt; "C cut:")?;
    all_cut(rt, &C)?;
    print!(rt; "\nC, second form, cut:")?;
    all_cut(rt, &C2)?;
    println!(rt)
}

fn written(rt: &impl Print) -> io::Result<()> {
    lengths(rt)?;
    with_word(rt, "n = 121 to write: ", 0, 121, 0, 0)?;
    with_word(rt, "a one outside: ", 2, 1, 1, 0)?;
    with_word(rt, "rule A broken: ", 1, 1, 0, 1)?;
    with_word(rt, "k = 1: ", 7, 2, 0, 1)?;
    with_word(rt, "n = 1, m = 1, empty: ", 0, 1, 1, 0)
}

fn main(rt: HostRuntime) -> io::Result<()> {
    bench_a_and_c(&rt)?;
    bench_e_and_f(&rt)?;
    bench_i_and_k(&rt)?;
    large(&rt)?;
    faults(&rt)?;
    replaced_and_cut(&rt)?;
    written(&rt)
}
