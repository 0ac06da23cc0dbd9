// Filling the matrix's words from the checks of a record that were judged right.
ghost use Rattle.std.specs.Prelude.{◌≡◌, ◌+◌, ◌*◌, ◌≤◌, ◌<◌, length};
ghost use Rattle.parity.specs.Matrix.{lent};
ghost use Rattle.reading.specs.Read.{puts};
ghost use Rattle.record.specs.Fill.{Payloads, InWord, gathered, Checks, Filled};

use reading::words::payload;
use rows::raise;

// The word `x` with the bits, modulo 64, of record words.
fn gather(ones: &[u32], x: u64) -> u64
    ensures { result ≡ gathered ones.now (length ones.now) x }
{
    let mut y = x;
    for w in ones {
        y |= 1 << (payload(*w) % 64);
    }
    y
}

// Puts the bits of record words, which all are in word `i` of check `c`, into it.
fn fill_word(ones: &[u32], words: &mut [u64], c: usize, i: usize)
    requires { (c * 8 + 8 ≤ length words.old) × (i < 8) × InWord ones.now i }
    ensures { lent 8 words.new ≡ puts ones.now c 0 (length ones.now) (lent 8 words.old) }
{
    words[c * 8 + i] = gather(ones, words[c * 8 + i]);
}

// Puts the rising bits of record words into check `c`, word by word of the check.
fn fill_many(ones: &[u32], words: &mut [u64], c: usize)
    requires { Payloads ones.now 128 × (c * 8 + 8 ≤ length words.old) }
    ensures { lent 8 words.new ≡ puts ones.now c 0 (length ones.now) (lent 8 words.old) }
{
    let (low, high) = ones.split_at(ones.partition_point(|w| payload(*w) < 64));
    fill_word(low, words, c, 0);
    fill_word(high, words, c, 1);
}

// The same, bit by bit.
fn fill_few(ones: &[u32], words: &mut [u64], c: usize)
    requires { Payloads ones.now 128 × (c * 8 + 8 ≤ length words.old) }
    ensures { lent 8 words.new ≡ puts ones.now c 0 (length ones.now) (lent 8 words.old) }
{
    for w in ones {
        raise(words, 8, c, payload(*w));
    }
}

// The same. Bit by bit is quicker where they are few.
fn fill_check(ones: &[u32], words: &mut [u64], c: usize)
    requires { Payloads ones.now 128 × (c * 8 + 8 ≤ length words.old) }
    ensures { lent 8 words.new ≡ puts ones.now c 0 (length ones.now) (lent 8 words.old) }
{
    if ones.len() < 16 {
        fill_few(ones, words, c);
    } else {
        fill_many(ones, words, c);
    }
}

// The words of the matrix that the `m` checks of a record are.
pub fn fill(source: &[u32], words: &mut [u64], m: usize)
    requires { (length words.old ≡ 4096) × Checks m source.now }
    ensures { Filled m source.now words.new }
{
    words.fill(0);
    let mut p = 1;
    for c in 0..m {
        let count = payload(source[p]) % 256;
        fill_check(&source[p + 1..p + 1 + count], words, c);
        p += 1 + count;
    }
}
