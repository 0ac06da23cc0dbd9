// The search for a check that peeling can solve, in a list of the checks that may still have an erased bit. The list shrinks as it is gone through: a check
// that has none is left out.
#![tactic(auto)]

ghost use Rattle.std.specs.Prelude.{◌≡◌, ◌*◌, ◌≤◌, ◌<◌, length};
ghost use Rattle.parity.specs.Matrix.{lent};
ghost use Rattle.sets.specs.Sets.{Short};
ghost use Rattle.search.specs.Live.{Live, NextAlone, Listed, Offsets};

use parity::{Bit, Check};

// A check with exactly one erased bit, that bit, and the check's place in the list.
#[derive(Clone, Copy, Debug, PartialEq, Eq)]
pub struct Alone {
    pub check: Check,
    pub bit: Bit,
    pub place: usize,
}

// What a search comes to: the check that it finds, and how many checks before it are kept; or, where it finds none, how many are kept of all.
#[derive(Clone, Copy, Debug, PartialEq, Eq)]
pub struct Next {
    pub alone: Option<Alone>,
    pub kept: usize,
}

// The first `checks` checks are listed.
pub fn list(checks: usize, live: &mut [u16])
    requires { (checks ≤ 512) × (length live.old ≡ 512) }
    ensures { Listed checks live.new }
{
    for c in 0..checks {
        live[c] = c as u16;
    }
}

// The offsets, that is the numbers modulo 64, of the erased bits of check `c` in its first `used` words.
fn offsets(words: &[u64], used: usize, c: usize, erased: &[u64]) -> u64
    requires { (length words.now ≡ 4096) × (c < 512) × (length erased.now ≡ 8) × (used ≤ 8) }
    ensures { Offsets 8 used words.now erased.now c result }
{
    let mut x: u64 = 0;
    for i in 0..used {
        x = x | (words[c * 8 + i] & erased[i]);
    }
    x
}

// The next check of the list's first `count`, from place `from` on, with exactly one erased bit; these are in the first `used` words, so that `used * 64` is
// none of them. A check with a second one is kept, from place `kept` on. Nearly always its second erased bit has another offset than the first, and so
// the offsets of all words are gone through before the bits of each word: the processor foresees where that ends.
fn next_alone(
    words: &[u64],
    used: usize,
    checks: usize,
    live: &mut [u16],
    count: usize,
    from: usize,
    kept: usize,
    erased: &[u64],
) -> Next
    requires { (length words.now ≡ 4096) × (checks ≤ 512) × (length live.old ≡ 512) × (count ≤ 512) × (length erased.now ≡ 8) × (used ≤ 8) × (kept ≤ from) × (from ≤ count) × Short (used * 64) (lent 8 erased.now 0) × Live (lent 8 words.now) 512 checks (lent 8 erased.now 0) live.old kept from count }
    ensures { NextAlone (lent 8 words.now) 512 checks (lent 8 erased.now 0) count kept live.new result }
{
    let mut at = from;
    let mut k = kept;
    'scan: loop {
        if count <= at {
            break 'scan Next {
                alone: None,
                kept: k,
            };
        }
        let c = live[at] as usize;
        let mut y = offsets(words, used, c, erased);
        let mut seen = false;
        'offsets: while y != 0 {
            if seen {
                live[k] = live[at];
                k += 1;
                at += 1;
                continue 'scan;
            }
            seen = true;
            y = y & (y - 1);
        }
        let mut b = used * 64;
        'row: for i in 0..used {
            let mut x = words[c * 8 + i] & erased[i];
            'bits: while x != 0 {
                if b < used * 64 {
                    live[k] = live[at];
                    k += 1;
                    at += 1;
                    continue 'scan;
                }
                b = i * 64 + x.trailing_zeros() as usize;
                x = x & (x - 1);
            }
        }
        if b < used * 64 {
            let alone = Alone {
                check: Check(c),
                bit: Bit(b),
                place: at,
            };
            break 'scan Next {
                alone: Some(alone),
                kept: k,
            };
        }
        at += 1;
    }
}

// The same: the number of words in use, or a few more, is known beforehand, and the search is quicker.
pub fn next_in(
    words: &[u64],
    used: usize,
    checks: usize,
    live: &mut [u16],
    count: usize,
    from: usize,
    kept: usize,
    erased: &[u64],
) -> Next
    requires words_len { (length words.now ≡ 4096) × (checks ≤ 512) × (length live.old ≡ 512) × (count ≤ 512) × (length erased.now ≡ 8) × (used ≤ 8) × (kept ≤ from) × (from ≤ count) }
    requires short { Short (used * 64) (lent 8 erased.now 0) × Live (lent 8 words.now) 512 checks (lent 8 erased.now 0) live.old kept from count }
    ensures { NextAlone (lent 8 words.now) 512 checks (lent 8 erased.now 0) count kept live.new result }
{
    if used <= 1 {
        return next_alone(words, 1, checks, live, count, from, kept, erased);
    }
    if used == 2 {
        return next_alone(words, 2, checks, live, count, from, kept, erased);
    }
    if used <= 4 {
        return next_alone(words, 4, checks, live, count, from, kept, erased);
    }
    next_alone(words, 8, checks, live, count, from, kept, erased)
}
