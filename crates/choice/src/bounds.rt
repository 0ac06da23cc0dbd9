// Row bounds: for each bit, a bound on its shares of two or more with the bits above it. They give the pair to split.
ghost use Rattle.std.specs.Prelude.{◌≡◌, ◌≤◌, ◌<◌, length};
ghost use Rattle.parity.specs.Matrix.{lent};
ghost use Rattle.columns.specs.Columns.{shares, Given};
ghost use Rattle.choice.specs.Bounds.{Weights, Bounded, Head, Largest, FirstAt, RowBelow, Narrow, Scanned, Chosen, Raised};

use crate::numbers::{best, lift};
use columns::planes::{above, tally};
use columns::shared;
use parity::Bit;
use rows::words_of;

// The first bounds: how many given checks contain the bit.
pub fn weights(cols: &[u64], bits: usize) -> [u64; 512]
    requires { (length cols.now ≡ 1024) × (bits ≤ 512) }
    ensures { Weights (shares cols.now) result bits }
{
    let mut bound = [0u64; 512];
    for x in 0..bits {
        bound[x] = shared(cols, 2, Bit(x), Bit(x));
    }
    bound
}

// A row and its bound.
#[derive(Clone, Copy)]
struct Row {
    low: Bit,
    times: u64,
}

// The first row that has the largest bound.
fn largest(bound: &[u64], bits: usize) -> Row
    requires { bits ≤ length bound.now }
    ensures { Largest bound.now bits result.low.0 result.times }
{
    let mut low: usize = 0;
    let mut times: u64 = 0;
    for x in 0..bits {
        let t = bound[x];
        if times < t {
            low = x;
            times = t;
        }
    }
    Row {
        low: Bit(low),
        times,
    }
}

// The first row from `from` on whose bound is the cap, if there is one below `bits`.
fn first_at(bound: &[u64], bits: usize, from: Bit, cap: u64) -> Option<Bit>
    requires { bits ≤ length bound.now }
    ensures { FirstAt bound.now bits from.0 cap result }
{
    for x in from.0..bits {
        if bound[x] == cap {
            return Some(Bit(x));
        }
    }
    None
}

// The first row that has the largest bound, where no bound is above the cap and those before `from` are below it.
fn top_row(bound: &[u64], bits: usize, from: Bit, cap: u64) -> Row
    requires bits_in_bounds { bits ≤ length bound.now }
    requires head { Head bound.now bits from.0 cap }
    ensures { Largest bound.now bits result.low.0 result.times }
{
    match first_at(bound, bits, from, cap) {
        Some(low) => Row { low, times: cap },
        None => largest(bound, bits),
    }
}

// The first bit above `u` that shares `s` checks with it, or else the row's largest share: a word of bits at a time.
fn scan(words: &[u64], cols: &[u64], bits: usize, u: Bit, s: u64) -> Result<Bit, u64>
    requires words_len { (length words.now ≡ 4096) × (length cols.now ≡ 1024) × (bits ≤ 512) × (u.0 < bits) × (2 ≤ s) }
    requires given { Given (lent 8 words.now) (lent 2 cols.now) × Narrow (shares cols.now) bits × RowBelow (shares cols.now) bits u.0 s }
    ensures { Scanned (shares cols.now) bits u.0 s result }
{
    let from = u.0 + 1;
    let mut mask = above(from);
    let mut most: u64 = 0;
    for i in from / 64..words_of(bits) {
        let top = best(tally(cols, 2, u.0, 2, words, 8, i), mask);
        if top.value == s {
            return Ok(Bit(i * 64 + top.left.trailing_zeros() as usize));
        }
        most = most.max(top.value);
        mask = !0;
    }
    Err(most)
}

// The pair to split: its two bits and their share, which is two or more.
#[derive(Clone, Copy, Debug, PartialEq, Eq)]
pub struct Pair {
    pub low: Bit,
    pub high: Bit,
    pub share: u64,
}

// The pair to split, if there is one, where the rows before `first` have bounds below `most`, and no row has one above it.
pub fn pick(
    words: &[u64],
    cols: &[u64],
    bits: usize,
    bound: &mut [u64],
    first: Bit,
    most: u64,
) -> Option<Pair>
    requires words_len { (length words.now ≡ 4096) × (length cols.now ≡ 1024) × (length bound.old ≡ 512) × (bits ≤ 512) }
    requires given { Given (lent 8 words.now) (lent 2 cols.now) × Narrow (shares cols.now) bits }
    requires bounded { Bounded (shares cols.now) bits bound.old × Head bound.old bits first.0 most }
    ensures { Chosen (shares cols.now) bits bound.new result × Bounded (shares cols.now) bits bound.new }
{
    let mut from = first;
    let mut cap = most;
    loop {
        let Row { low, times: share } = top_row(bound, bits, from, cap);
        if share < 2 {
            return None;
        }
        match scan(words, cols, bits, low, share) {
            Ok(high) => return Some(Pair { low, high, share }),
            Err(most) => {
                bound[low.0] = most;
                from = Bit(low.0 + 1);
                cap = share;
            }
        }
    }
}

// The bounds take in the shares of the new bit `z`: a word of bits at a time.
pub fn widen(words: &[u64], cols: &[u64], z: Bit, bound: &mut [u64])
    requires words_len { (length words.now ≡ 4096) × (length cols.now ≡ 1024) × (length bound.old ≡ 512) × (z.0 < 512) }
    requires given { Given (lent 8 words.now) (lent 2 cols.now) }
    ensures { Raised (shares cols.now) z.0 bound.old bound.new z.0 }
{
    let new = z.0;
    for i in 0..words_of(new) {
        lift(bound, tally(cols, 2, new, 2, words, 8, i), i);
    }
    bound[new] = 0;
}
