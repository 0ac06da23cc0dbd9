// What the sets of a word's erased bits and of its ones come to: whether the checks agree, and the word.
#![tactic(auto)]

ghost use Rattle.std.specs.Prelude.{◌≡◌, ◌*◌, ◌<◌, ◌≤◌, length};
ghost use Rattle.parity.specs.Finite.{one, list_from};
ghost use Rattle.parity.specs.Matrix.{lent};
ghost use Rattle.parity.specs.Calls.{byte_of};
ghost use Rattle.sets.specs.Sets.{Short};
ghost use Rattle.result.specs.Result.{BothShort, WithSets, agreeing, filled, Reaching, WordWritten, Finished};

use parity::Check;
use rows::contains;
use sets::{is_odd, touches};

// Whether each of the first `checks` checks without an erased bit is even, by their first `used` words. Where nothing is erased, no check is odd but for a
// contradiction, and so this is asked first.
fn agree_in(words: &[u64], used: usize, checks: usize, erased: &[u64], ones: &[u64]) -> bool
    requires { WithSets words.now checks erased.now ones.now used }
    ensures { result ≡ agreeing (lent 8 words.now) (used * 64) checks (lent 8 erased.now 0) (lent 8 ones.now 0) }
{
    for c in 0..checks {
        if is_odd(words, used, Check(c), ones) {
            if !touches(words, used, Check(c), erased) {
                return false;
            }
        }
    }
    true
}

// The same. Where a bit is erased, the processor does not foresee which checks are odd, and so both are asked before it is decided.
fn agree_left(words: &[u64], used: usize, checks: usize, erased: &[u64], ones: &[u64]) -> bool
    requires { WithSets words.now checks erased.now ones.now used }
    ensures { result ≡ agreeing (lent 8 words.now) (used * 64) checks (lent 8 erased.now 0) (lent 8 ones.now 0) }
{
    for c in 0..checks {
        let odd = is_odd(words, used, Check(c), ones);
        let touched = touches(words, used, Check(c), erased);
        if odd & !touched {
            return false;
        }
    }
    true
}

// What `asks` answers for the first `used` words. Where these are one, two or all, their number is known beforehand.
fn in_words<F: Fn(usize) -> bool>(used: usize, asks: F) -> bool
    requires { F.pre asks used }
    ensures { F.post asks used result }
{
    match used {
        1 => asks(1),
        2 => asks(2),
        8 => asks(8),
        _ => asks(used),
    }
}

// The same of sets whose bits are in the first `used` words, whether a bit is erased or none.
pub fn agree(words: &[u64], used: usize, checks: usize, erased: &[u64], ones: &[u64]) -> bool
    requires with_sets { WithSets words.now checks erased.now ones.now used }
    requires both_short { BothShort used erased.now ones.now }
    ensures { result ≡ agreeing (lent 8 words.now) 512 checks (lent 8 erased.now 0) (lent 8 ones.now 0) }
{
    if rows::touches(erased, 0, erased, 0, 8, 8) {
        return in_words(used, |u| agree_left(words, u, checks, erased, ones));
    }
    in_words(used, |u| agree_in(words, u, checks, erased, ones))
}

// The byte of bit `b`, which is not erased.
fn byte_at(ones: &[u64], width: usize, b: usize) -> u8
    requires { (width ≤ length ones.now) × (b < width * 64) }
    ensures { result ≡ one (lent width ones.now 0 b) }
{
    contains(ones, width, 0, b) as u8
}

// Each bit that is a one of `x`, word `i` of a set, gets its byte.
fn write_ones(word: &mut [u8], i: usize, x: u64, ones: &[u64], width: usize)
    requires { (i < width) × (width ≤ 8) × (width ≤ length ones.now) × Reaching (length word.old) i x }
    ensures { WordWritten i x (lent width ones.now 0) word.old word.new }
{
    let mut rest = x;
    while rest != 0 {
        let b = i * 64 + rest.trailing_zeros() as usize;
        word[b] = byte_at(ones, width, b);
        rest = rest & (rest - 1);
    }
}

// Each bit that was lost and is not erased gets its byte. The sets have `width` words.
pub fn write(word: &mut [u8], lost: &[u64], erased: &[u64], ones: &[u64], width: usize)
    requires { (width ≤ 8) × (length lost.now ≡ width) × (length erased.now ≡ width) × (length ones.now ≡ width) × Short (length word.old) (lent width lost.now 0) }
    ensures { word.new ≡ list_from 0 (length word.old) (filled (lent width lost.now 0) (lent width erased.now 0) (lent width ones.now 0) (byte_of word.old)) }
{
    for i in 0..width {
        write_ones(word, i, lost[i] & !erased[i], ones, width);
    }
}

// Each bit that was lost and is not erased gets its byte if each check without an erased bit is even, and else the word stays. Whether they
// are. The sets have their bits in the first `used` words.
pub fn finish(
    words: &[u64],
    used: usize,
    checks: usize,
    word: &mut [u8],
    lost: &[u64],
    erased: &[u64],
    ones: &[u64],
) -> bool
    requires words_len { (length words.now ≡ 4096) × (checks ≤ 512) × (length lost.now ≡ 8) × (length erased.now ≡ 8) × (length ones.now ≡ 8) × (used ≤ 8) × Short (length word.old) (lent 8 lost.now 0) }
    requires both_short { BothShort used erased.now ones.now }
    ensures { Finished (lent 8 words.now) 512 checks (lent 8 lost.now 0) (lent 8 erased.now 0) (lent 8 ones.now 0) word.old result word.new }
{
    let agreed = agree(words, used, checks, erased, ones);
    if agreed {
        write(word, lost, erased, ones, 8);
    }
    agreed
}
