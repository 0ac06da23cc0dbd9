// Writing the words of a record.
ghost use Rattle.std.specs.Prelude.{◌≡◌, ◌+◌, ◌*◌, ◌^◌, ◌≤◌, ◌<◌, length};
ghost use Rattle.parity.specs.Finite.{sum, count, list_from};
ghost use Rattle.parity.specs.Matrix.{lent};
ghost use Rattle.parity.specs.Record.{head_kind, opening, bit_words, check_words};
ghost use Rattle.parity.specs.Sound.{Sound};
ghost use Rattle.writing.specs.Write.{word_ones, check_of, split_of_check, plain_record, Wrote};

use parity::{Check, Form};
use reading::words::{head_kind, number_in};
use rows::common;
use rows::ones::next_one;

// Writes the ones of `x` from place `p` on, bit 0 as the word `first`, and answers the place behind them.
fn put_word(x: u64, first: u32, target: &mut [u32], p: usize) -> usize
    requires { (p + length (word_ones first x 64) ≤ length target.old) × (first + 64 < 2 ^ 32) }
    ensures { Wrote target.old target.new p (word_ones first x 64) result }
{
    let mut rest = x;
    let mut at = p;
    while rest != 0 {
        target[at] = first + u64::trailing_zeros(rest);
        at += 1;
        rest = rest & (rest - 1);
    }
    at
}

// The word that opens check `c`, of so many ones.
fn opening_word(form: Form, c: Check, ones: usize) -> u32
    requires { (c.0 < 512) × (ones ≤ 512) }
    ensures { result ≡ opening form c.0 ones }
{
    0x2000_0000 + number_in(form, c) as u32 * 256 + ones as u32
}

// Checks as rows of `width` words, none of which has a one beyond its first `used` words.
#[derive(Clone, Copy)]
pub struct Rows<'a> {
    pub words: &'a [u64],
    pub width: usize,
    pub used: usize,
    ghost in_range: { (used ≤ width) × (width ≤ 8) },
}

impl Rows<'_> {
    // How many bits row `c` contains: those that it has in common with itself.
    fn weight(self, c: usize) -> usize
        requires { c * self.width + self.width ≤ length self.words.now }
        ensures { result ≡ count (self.entry.used * 64) (lent self.entry.width self.entry.words.now c) }
    {
        common(self.words, c, self.words, c, self.width, self.used)
    }

    // How many words the record of `m` of them takes, of whichever form: the first and the last, and for each check one that opens it and its ones.
    pub fn needed(self, m: usize) -> usize
        requires { (m * self.width ≤ length self.words.now) × (m ≤ 120) }
        ensures { result ≡ sum m (λ c. 1 + count (self.entry.used * 64) (lent self.entry.width self.entry.words.now c)) + 2 }
    {
        let mut total: usize = 2;
        for c in 0..m {
            total += 1 + self.weight(c);
        }
        total
    }

    // Writes the bits of row `c` from place `p` on, and answers the place behind them.
    fn put_row(self, c: usize, target: &mut [u32], p: usize) -> usize
        requires width_in_bounds { c * self.width + self.width ≤ length self.words.now }
        requires used_in_bounds { p + length (bit_words (lent self.width self.words.now c) (self.used * 64)) ≤ length target.old }
        ensures { Wrote target.old target.new p (bit_words (lent self.entry.width self.entry.words.now c) (self.entry.used * 64)) result }
    {
        let mut at = p;
        for i in 0..self.used {
            let x = self.words[c * self.width + i];
            at = put_word(x, 0x3000_0000 + (i * 64) as u32, target, at);
        }
        at
    }

    // Writes check `c` from place `p` on, and answers the place behind it.
    fn put_check(self, form: Form, c: Check, target: &mut [u32], p: usize) -> usize
        requires width_in_bounds { (c.0 * self.width + self.width ≤ length self.words.now) × (c.0 < 512) }
        requires used_in_bounds { p + length (check_of form c.0 (lent self.width self.words.now c.0) (self.used * 64)) ≤ length target.old }
        ensures { Wrote target.old target.new p (check_of form c.0 (lent self.entry.width self.entry.words.now c.0) (self.entry.used * 64)) result }
    {
        target[p] = opening_word(form, c, self.weight(c.0));
        self.put_row(c.0, target, p + 1)
    }

    // Writes the first `m` checks from place 1 on, and answers the place behind them.
    fn put_checks(self, form: Form, m: usize, target: &mut [u32]) -> usize
        requires width_in_bounds { (m * self.width ≤ length self.words.now) × (m ≤ 120) }
        requires m_in_bounds { 1 + length (check_words form (lent self.width self.words.now) (self.used * 64) m) ≤ length target.old }
        ensures { Wrote target.old target.new 1 (check_words form (lent self.entry.width self.entry.words.now) (self.entry.used * 64) m) result }
    {
        let mut p = 1;
        for c in 0..m {
            p = self.put_check(form, Check(c), target, p);
        }
        p
    }
}

// The first word.
fn head_word(form: Form, n: usize, m: usize) -> u32
    requires { (n ≤ 120) × (m ≤ 120) }
    ensures { result ≡ head_kind form * 2 ^ 28 + m * 256 + n }
{
    head_kind(form) as u32 * 0x1000_0000 + m as u32 * 256 + n as u32
}

// The kind 6 word of split `j`: the two lower bits of its check `m + j`.
fn split_word(words: &[u64], n: usize, m: usize, k: usize, j: usize) -> u32
    requires { (length words.now ≡ 4096) × Sound (lent 8 words.now) n m k × (j < k) }
    ensures { result ≡ split_of_check (lent 8 words.now) n m j }
{
    let c = m + j;
    let lower = next_one(words, Check(c), 0);
    let higher = next_one(words, Check(c), lower + 1);
    0x6000_0000 + (higher as u32 * 512 + lower as u32)
}

// Writes the splits from place `p` on, in order, and answers the place behind them.
fn put_splits(words: &[u64], n: usize, m: usize, k: usize, target: &mut [u32], p: usize) -> usize
    requires { (length words.now ≡ 4096) × Sound (lent 8 words.now) n m k × (p + k ≤ length target.old) }
    ensures { Wrote target.old target.new p (list_from 0 k (split_of_check (lent 8 words.now) n m)) result }
{
    for j in 0..k {
        target[p + j] = split_word(words, n, m, k, j);
    }
    p + k
}

// Writes the record, of a form: the checks, and the `k` splits of `words`. Answers how many words it took.
pub fn put_record(
    checks: Rows,
    words: &[u64],
    form: Form,
    n: usize,
    m: usize,
    k: usize,
    target: &mut [u32],
) -> usize
    requires width_in_bounds { (m * checks.width ≤ length checks.words.now) × (length words.now ≡ 4096) × Sound (lent 8 words.now) n m k }
    requires k_in_bounds { length (plain_record form (lent checks.width checks.words.now) (checks.used * 64) (lent 8 words.now) n m k) ≤ length target.old }
    ensures { Wrote target.old target.new 0 (plain_record form (lent checks.entry.width checks.entry.words.now) (checks.entry.used * 64) (lent 8 words.now) n m k) result }
{
    target[0] = head_word(form, n, m);
    let behind = checks.put_checks(form, m, target);
    let end = put_splits(words, n, m, k, target, behind);
    target[end] = 0xf000_0000;
    end + 1
}
