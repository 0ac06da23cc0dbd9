// The lines that the program mend writes, put into lent bytes: a refusal's, and the three of a report.
#![tactic(auto)]

pub mod text;

ghost use Rattle.std.specs.Prelude.{◌≡◌, ◌+◌, ◌≤◌, length};
ghost use Rattle.parity.specs.Causes.{refusal_of};
ghost use Rattle.parity.specs.Mend.{residue_text, shown, refused_line, report};
ghost use Rattle.lines.specs.Placed.{Placed};
ghost use Rattle.lines.specs.Lines.{Bytes, left_text, word_text, splits_line, residue_line, word_line};

use crate::text::{put_byte, put_bytes, put_decimal};
use parity::Refusal;
use refusals::number;

const SPLITS: [u8; 7] = *b"SPLITS ";

const SUM: [u8; 5] = *b" SUM ";

const RESIDUE: [u8; 7] = *b"RESIDUE";

const WORD: [u8; 5] = *b"WORD ";

const REFUSED: [u8; 8] = *b"REFUSED ";

const LINE_END: u8 = 10;

// Puts a bit's number with a space before it, if its byte x says that it is erased.
fn put_left(out: &mut [u8], at: usize, x: u8, b: usize) -> usize
    requires { at + length (left_text x b) ≤ length out.old }
    ensures { Placed out.old at (left_text x b) out.new result }
{
    if x == 2 {
        let next = put_byte(out, at, b' ');
        return put_decimal(out, next, b as u64);
    }
    at
}

// Puts the number of each of a word's first n bits that is erased.
fn put_residue(out: &mut [u8], at: usize, word: &[u8], n: usize) -> usize
    requires n_in_bounds { at + length (residue_text word.now n) ≤ length out.old }
    requires n_in_bounds_2 { n ≤ length word.now }
    ensures { Placed out.old at (residue_text word.now n) out.new result }
{
    let mut next = at;
    for b in 0..n {
        next = put_left(out, next, word[b], b);
    }
    next
}

// The character of a byte of a word.
fn character(x: u8) -> u8
    requires { x ≤ 2 }
    ensures { result ≡ shown x }
{
    if x == 2 { b'?' } else { b'0' + x }
}

// Puts a word's first n characters.
fn put_characters(out: &mut [u8], at: usize, word: &[u8], n: usize) -> usize
    requires n_in_bounds { at + n ≤ length out.old }
    requires n_in_bounds_2 { n ≤ length word.now }
    requires bytes { Bytes 2 word.now }
    ensures { Placed out.old at (word_text word.now n) out.new result }
{
    let mut next = at;
    for b in 0..n {
        next = put_byte(out, next, character(word[b]));
    }
    next
}

// Puts the line with the splits made and the sum.
fn put_splits_line(out: &mut [u8], at: usize, splits: u64, sum: u64) -> usize
    requires { at + length (splits_line splits sum) ≤ length out.old }
    ensures { Placed out.old at (splits_line splits sum) out.new result }
{
    let splits_head = SPLITS;
    let sum_head = SUM;
    let mut next = put_bytes(out, at, &splits_head);
    next = put_decimal(out, next, splits);
    next = put_bytes(out, next, &sum_head);
    next = put_decimal(out, next, sum);
    put_byte(out, next, LINE_END)
}

// Puts the line with each sent bit left.
fn put_residue_line(out: &mut [u8], at: usize, word: &[u8], n: usize) -> usize
    requires n_in_bounds { at + length (residue_line word.now n) ≤ length out.old }
    requires n_in_bounds_2 { n ≤ length word.now }
    ensures { Placed out.old at (residue_line word.now n) out.new result }
{
    let head = RESIDUE;
    let mut next = put_bytes(out, at, &head);
    next = put_residue(out, next, word, n);
    put_byte(out, next, LINE_END)
}

// Puts the line with the word.
fn put_word_line(out: &mut [u8], at: usize, word: &[u8], n: usize) -> usize
    requires n_in_bounds { at + length (word_line word.now n) ≤ length out.old }
    requires n_in_bounds_2 { n ≤ length word.now }
    requires bytes { Bytes 2 word.now }
    ensures { Placed out.old at (word_line word.now n) out.new result }
{
    let head = WORD;
    let mut next = put_bytes(out, at, &head);
    next = put_characters(out, next, word, n);
    put_byte(out, next, LINE_END)
}

// Puts the three lines: splits made and the sum, each sent bit left, and n characters.
pub fn put_report(out: &mut [u8], splits: u64, sum: u64, word: &[u8], n: usize) -> usize
    requires word_in_bounds { length (report n splits sum word.now) ≤ length out.old }
    requires n_in_bounds { n ≤ length word.now }
    requires bytes { Bytes 2 word.now }
    ensures { Placed out.old 0 (report n splits sum word.now) out.new result }
{
    let mut next = put_splits_line(out, 0, splits, sum);
    next = put_residue_line(out, next, word, n);
    put_word_line(out, next, word, n)
}

// Puts a refusal's line.
pub fn put_refused(out: &mut [u8], refusal: Refusal) -> usize
    requires { length (refused_line (refusal_of refusal).number) ≤ length out.old }
    ensures { Placed out.old 0 (refused_line (refusal_of refusal).number) out.new result }
{
    let cause = number(refusal);
    let head = REFUSED;
    let mut next = put_bytes(out, 0, &head);
    next = put_decimal(out, next, cause);
    put_byte(out, next, LINE_END)
}
