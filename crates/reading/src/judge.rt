// Judging a record: what its first word gives and the place behind its checks, or the place of a faulty word; and its end.
ghost use Rattle.std.specs.Prelude.{◌≡◌, ◌+◌, ◌≤◌, ◌<◌, length};
ghost use Rattle.parity.specs.declared.Refusal.TheVariants.{FaultyWord};
ghost use Rattle.reading.specs.Read.{Run, BitsRead, Fault, Rises, AllBits};
ghost use Rattle.reading.specs.Judge.{HeadRead, CheckRead, Reached, Judges, EndRead};

use crate::words::{Word, number_in, payload, read};
use parity::{Check, Form, Refusal};

// What the first word gives.
#[derive(Clone, Copy, Debug, PartialEq, Eq)]
pub struct Head {
    pub form: Form,
    pub n: usize,
    pub m: usize,
}

// A record whose first word and checks are right, and the place behind its checks.
#[derive(Clone, Copy, Debug, PartialEq, Eq)]
pub struct Judged {
    pub head: Head,
    pub place: usize,
}

// The place of the faulty word.
#[derive(Clone, Copy, Debug, PartialEq, Eq)]
pub struct Faulty {
    pub place: usize,
}

impl From<Faulty> for Refusal {
    ghost from_gives = { λ f r. r ≡ FaultyWord f.place };

    fn from(f: Faulty) -> Refusal {
        Refusal::FaultyWord { place: f.place }
    }
}

// Decides a word by its kind: whether it is no bit, or not above the word before.
fn fault(before: u32, w: u32) -> bool
    ensures { Fault before w result }
{
    match w >> 28 {
        0..=2 => true,
        3 => w <= before,
        4..=15 => true,
        16..=0xffff_ffff => true,
    }
}

// How many of `count` words from place `from` on are not bits above the word before, which for the first is the one that opens the check. It has no way out
// before the last word, so that several are decided at once.
fn faults(source: &[u32], from: usize, count: usize) -> u32
    requires { Run source.now from count }
    ensures { Rises source.now from count result }
{
    let mut wrong: u32 = 0;
    for i in 0..count {
        wrong += fault(source[from + i - 1], source[from + i]) as u32;
    }
    wrong
}

// Whether `count` words from place `from` on, one at least, are bits below `n`, each above the one before.
fn all_bits(source: &[u32], n: usize, from: usize, count: usize) -> bool
    requires { Run source.now from count }
    ensures { AllBits n source.now from count result }
{
    if count == 0 {
        return false;
    }
    if n <= payload(source[from + count - 1]) {
        return false;
    }
    faults(source, from, count) == 0
}

// How many of `count` words from place `from` on are bits below `n`, each above the one before: word by word.
fn bits_singly(source: &[u32], n: usize, from: usize, count: usize) -> usize
    requires { from + count ≤ length source.now }
    ensures { BitsRead n source.now from count result }
{
    let mut low = 0;
    for i in 0..count {
        let Word::Bit(b) = read(source[from + i]) else {
            return i;
        };
        if b < low {
            return i;
        }
        if n <= b {
            return i;
        }
        low = b + 1;
    }
    count
}

// The same. Where they all are, it is found without looking for the first that is not; for fewer than eight, which are decided at once, word by word is quicker.
fn bits(source: &[u32], n: usize, from: usize, count: usize) -> usize
    requires { Run source.now from count }
    ensures { BitsRead n source.now from count result }
{
    if count < 8 {
        return bits_singly(source, n, from, count);
    }
    if all_bits(source, n, from, count) {
        return count;
    }
    bits_singly(source, n, from, count)
}

// Judges check `c`, whose kind 2 word is at place `p`, and answers the place behind it.
fn check(source: &[u32], head: Head, c: Check, p: usize) -> Result<usize, Faulty>
    requires { p ≤ length source.now }
    ensures { CheckRead head.form head.n c.0 source.now p result }
{
    if p == source.len() {
        return Err(Faulty { place: p });
    }
    let Word::Open(x) = read(source[p]) else {
        return Err(Faulty { place: p });
    };
    let number = x / 256;
    let due_number = number_in(head.form, c);
    if number != due_number {
        return Err(Faulty { place: p });
    }
    let count = x % 256;
    if head.n < count {
        return Err(Faulty { place: p });
    }
    let left = source.len() - p - 1;
    let due = count.min(left);
    let right = bits(source, head.n, p + 1, due);
    if right < count {
        return Err(Faulty {
            place: p + 1 + right,
        });
    }
    Ok(p + 1 + right)
}

// Judges what is left at place `p`, behind the checks and the splits: the end word, and nothing else.
pub fn end(source: &[u32], p: usize) -> Result<(), Faulty>
    requires { p ≤ length source.now }
    ensures { EndRead source.now p result }
{
    if p == source.len() {
        return Err(Faulty { place: p });
    }
    let Word::End(x) = read(source[p]) else {
        return Err(Faulty { place: p });
    };
    if x != 0 {
        return Err(Faulty { place: p });
    }
    if p + 1 < source.len() {
        return Err(Faulty { place: p + 1 });
    }
    Ok(())
}

// Judges the checks.
fn checks(source: &[u32], head: Head) -> Result<Judged, Faulty>
    requires { Reached head.form head.n head.m source.now 1 0 }
    ensures { Judges source.now result }
{
    let mut place = 1;
    for c in 0..head.m {
        place = check(source, head, Check(c), place)?;
    }
    Ok(Judged { head, place })
}

// Judges the first word.
fn first_word(w: u32) -> Option<Head>
    ensures { HeadRead w result }
{
    let Word::Head(form, x) = read(w) else {
        return None;
    };
    let n = x % 256;
    let m = x / 256;
    if n < 1 {
        return None;
    }
    if 120 < n {
        return None;
    }
    if 120 < m {
        return None;
    }
    Some(Head { form, n, m })
}

// Judges a record, of any form, up to its last check.
pub fn judge(source: &[u32]) -> Result<Judged, Faulty>
    ensures { Judges source.now result }
{
    if source.len() == 0 {
        return Err(Faulty { place: 0 });
    }
    match first_word(source[0]) {
        Some(head) => checks(source, head),
        None => Err(Faulty { place: 0 }),
    }
}
