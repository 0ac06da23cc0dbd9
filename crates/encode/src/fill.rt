// The pivots of a word are filled in, so that its checks are even.
ghost use Rattle.std.specs.Prelude.{◌≡◌, ◌≤◌, ◌<◌, length, set};
ghost use Rattle.parity.specs.Finite.{one};
ghost use Rattle.parity.specs.Matrix.{lent, put};
ghost use Rattle.parity.specs.Words.{is_one, inside, odd};
ghost use Rattle.parity.specs.Calls.{byte_of};
ghost use Rattle.sets.specs.Sets.{SetOf};
ghost use Rattle.encode.specs.Filling.{Open, Filled};

use rows::{is_odd, lower, raise};
use sets::make_set;

// Bit `b` of the set becomes `x`.
fn put_bit(set: &mut [u64], b: usize, x: bool)
    requires { (length «set».old ≡ 2) × (b < 128) }
    ensures { lent 2 «set».new ≡ put 0 b x (lent 2 «set».old) }
{
    if x {
        raise(set, 2, 0, b);
        return;
    }
    lower(set, 2, 0, b);
}

// Bit `b` of the word, and of the set of its ones, becomes the sum modulo 2 of the ones of check `c`.
fn fill_bit(rows: &[u64], c: usize, b: usize, ones: &mut [u64], word: &mut [u8])
    requires { (length rows.now ≡ 240) × (c < 120) × (b < length word.old) × (length word.old ≤ 120) × SetOf 2 word.old 1 ones.old }
    ensures word_after { word.new ≡ set word.old b
        (one (odd (inside (lent 2 rows.now) (length word.old) c (is_one (byte_of word.old))))) }
    ensures set_of { SetOf 2 word.new 1 ones.new }
{
    let sum = is_odd(rows, 2, 2, c, ones);
    put_bit(ones, b, sum);
    word[b] = sum as u8;
}

// The pivots are filled in, from the last one down.
fn fill_down(rows: &[u64], pivots: &[usize], ones: &mut [u64], word: &mut [u8])
    requires rows_len { (length rows.now ≡ 240) × (length pivots.now ≤ 120) × (length word.old ≤ 120) × SetOf 2 word.old 1 ones.old }
    requires fact { Open (lent 2 rows.now) (length word.old) (length pivots.now) pivots.now (byte_of word.old) }
    ensures { Filled (lent 2 rows.now) (length word.old) (length pivots.now) pivots.now 0 (byte_of word.old) (byte_of word.new) }
{
    for c in (0..pivots.len()).rev() {
        fill_bit(rows, c, pivots[c], ones, word);
    }
}

// The pivots of the first checks, which are 0, become the bits that make these checks even.
pub fn fill(rows: &[u64], pivots: &[usize], word: &mut [u8])
    requires rows_len { (length rows.now ≡ 240) × (length pivots.now ≤ 120) × (length word.old ≤ 120) }
    requires fact { Open (lent 2 rows.now) (length word.old) (length pivots.now) pivots.now (byte_of word.old) }
    ensures { Filled (lent 2 rows.now) (length word.old) (length pivots.now) pivots.now 0 (byte_of word.old) (byte_of word.new) }
{
    let mut ones = [0u64; 2];
    make_set(word, 1, 2, &mut ones);
    fill_down(rows, pivots, &mut ones, word);
}
