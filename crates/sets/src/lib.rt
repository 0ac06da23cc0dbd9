// Sets of bits, as a row of words: made from bytes, met with a check, counted. The matrix has rows of eight words.
#![tactic(auto)]

pub mod bytes;
pub mod losses;
pub mod pairs;

ghost use Rattle.std.specs.Prelude.{◌≡◌, not, ◌*◌, ◌<◌, ◌≤◌, min, eqb, length};
ghost use Rattle.parity.specs.Finite.{count};
ghost use Rattle.parity.specs.Matrix.{lent};
ghost use Rattle.parity.specs.Words.{inside, odd};
ghost use Rattle.sets.specs.Sets.{Asked, WordOf, SetOf};

use parity::Check;

// Word `i` of the set of the bits whose byte is `value`.
fn word_of(bytes: &[u8], value: u8, i: usize) -> u64
    requires { i < 8 }
    ensures { WordOf bytes.now value i result }
{
    let first = i * 64;
    let end = bytes.len().min(first + 64);
    let mut x: u64 = 0;
    for b in first..end {
        if bytes[b] == value {
            x |= 1 << (b - first);
        }
    }
    x
}

// The `width` words of `set` become the set of the bits whose byte is `value`.
pub fn make_set(bytes: &[u8], value: u8, width: usize, set: &mut [u64])
    requires { (length bytes.now ≤ width * 64) × (length set.old ≡ width) × (width ≤ 8) }
    ensures { SetOf width bytes.now value set.new }
{
    for i in 0..width {
        set[i] = word_of(bytes, value, i);
    }
}

// The set of the bits whose byte is `value`, as a row of the matrix.
pub fn set_of(bytes: &[u8], value: u8) -> [u64; 8]
    requires { length bytes.now ≤ 512 }
    ensures { SetOf 8 bytes.now value result }
{
    let mut set = [0u64; 8];
    make_set(bytes, value, 8, &mut set);
    set
}

// Whether check `c` contains an odd number of the set's bits in its first `used` words.
pub fn is_odd(words: &[u64], used: usize, c: Check, set: &[u64]) -> bool
    requires { Asked words.now c.0 set.now used }
    ensures { result ≡ odd (inside (lent 8 words.now) (used * 64) c.0 (lent 8 set.now 0)) }
{
    rows::is_odd(words, 8, used, c.0, set)
}

// Whether check `c` contains a bit of the set in its first `used` words.
pub fn touches(words: &[u64], used: usize, c: Check, set: &[u64]) -> bool
    requires { Asked words.now c.0 set.now used }
    ensures { result ≡ not (eqb (inside (lent 8 words.now) (used * 64) c.0 (lent 8 set.now 0)) 0) }
{
    rows::touches(words, c.0, set, 0, 8, used)
}

// Whether check `c` contains exactly one of the set's bits in its first `used` words: which places of a word these bits take, and which of
// them twice.
pub fn is_single(words: &[u64], used: usize, c: Check, set: &[u64]) -> bool
    requires { Asked words.now c.0 set.now used }
    ensures { result ≡ eqb (inside (lent 8 words.now) (used * 64) c.0 (lent 8 set.now 0)) 1 }
{
    let d = c.0;
    let mut taken: u64 = 0;
    let mut twice: u64 = 0;
    for i in 0..used {
        let x = words[d * 8 + i] & set[i];
        twice |= taken & x;
        taken |= x;
    }
    twice == 0 && taken.is_power_of_two()
}

// How many of the bits below `bits` the set has.
pub fn size_below(set: &[u64], bits: usize) -> u64
    requires { (length set.now ≡ 8) × (bits < 512) }
    ensures { result ≡ count bits (lent 8 set.now 0) }
{
    rows::weight_below(set, 8, 0, bits) as u64
}

// How many bits the set has.
pub fn size(set: &[u64]) -> u64
    requires { length set.now ≡ 8 }
    ensures { result ≡ count 512 (lent 8 set.now 0) }
{
    rows::weight(set, 8, 0) as u64
}
