// Rule A on the words, by columns of the given checks and a table of the pairs of lower bits.
ghost use Rattle.std.specs.Prelude.{◌≡◌, true, ◌&&◌, ◌+◌, ◌*◌, ◌-◌, ◌≤◌, ◌<◌, leb, length};
ghost use Rattle.parity.specs.Matrix.{lent, clean, rule_a};
ghost use Rattle.columns.specs.Columns.{Columns};
ghost use Rattle.matrix.specs.Three.{Three, row_of, place_of, paired, PairIn, Passing, Fresh, Judged};

use columns::fill;
use columns::three::apart;
use parity::{Bit, Check};
use rows::bits::has;
use rows::ones::{next_one, weight};
use rows::{contains, raise};

// The row of bit `b` in the table of pairs, of which a row has `width` words.
fn row_of(width: usize, b: usize) -> usize
    requires { (width ≤ 8) × (b < 64 * width) }
    ensures { (result ≡ row_of width b) × (result ≤ 32 * width) }
{
    b.abs_diff(32 * width)
}

// The place of bit `a` in the row of bit `b`.
fn place_of(width: usize, a: usize, b: usize) -> usize
    requires { (width ≤ 8) × (a < b) × (b < 64 * width) }
    ensures { (result ≡ place_of width a b) × (result < width * 64) }
{
    if b < 32 * width {
        64 * width - 1 - a
    } else {
        a
    }
}

// Whether the table has the pair of bits `a` and `b`, of which `a` is the lower one.
fn has_pair(pairs: &[u64], width: usize, a: usize, b: usize) -> bool
    requires { (length pairs.now ≡ (32 * width + 1) * width) × (width ≤ 8) × (a < b) × (b < 64 * width) }
    ensures { result ≡ paired width pairs.now a b }
{
    contains(pairs, width, row_of(width, b), place_of(width, a, b))
}

// The pair is put into the table.
fn put_pair(pairs: &mut [u64], width: usize, a: usize, b: usize)
    requires { (length pairs.old ≡ (32 * width + 1) * width) × (width ≤ 8) × (a < b) × (b < 64 * width) }
    ensures { PairIn width pairs.old pairs.new a b }
{
    raise(pairs, width, row_of(width, b), place_of(width, a, b));
}

// Whether `y` is an added bit and its own check contains `x`.
fn in_own(words: &[u64], n: usize, m: usize, x: usize, y: usize) -> bool
    requires { (length words.now ≡ 4096) × (x < 512) × (m + (y - n) < 512) }
    ensures { result ≡ (leb n y && lent 8 words.now (m + (y - n)) x) }
{
    n <= y && has(words, Check(m + (y - n)), Bit(x))
}

// Whether no added check before `j` contains the lower bits `x` and `y` of check `j`: not as its own bit and a lower one, nor as its lower ones. Then they
// are put into the table.
fn fresh(
    words: &[u64],
    pairs: &mut [u64],
    width: usize,
    n: usize,
    m: usize,
    j: usize,
    x: usize,
    y: usize,
) -> bool
    requires words_len { (length words.now ≡ 4096) × (length pairs.old ≡ (32 * width + 1) * width) × (width ≤ 8) × (n + j < 64 * width) × (m + j < 512) }
    requires three { Three (lent 8 words.now) (m + j) x y (n + j) × Passing width (lent 8 words.now) n m j pairs.old }
    ensures { Fresh width (lent 8 words.now) n m j x y pairs.new result }
{
    if in_own(words, n, m, x, y) || has_pair(pairs, width, x, y) {
        return false;
    }
    put_pair(pairs, width, x, y);
    true
}

// Whether added check `m + j` passes: it has three ones, the highest of them its own bit, no given check contains two of them, and no added check before
// it the lower two. Then no added check behind it contains two of them if that one passes.
fn rule_at(
    words: &[u64],
    cols: &[u64],
    pairs: &mut [u64],
    width: usize,
    n: usize,
    m: usize,
    k: usize,
    j: usize,
) -> bool
    requires words_len { (length words.now ≡ 4096) × (length cols.now ≡ 1024) × (length pairs.old ≡ (32 * width + 1) * width) × (width ≤ 8) × (n + k ≤ 64 * width) × (m + k ≤ 512) × (m ≤ 120) × (j < k) }
    requires words_value { (clean 8 (n + k) (m + k) 0 words.now ≡ true) × Columns m (lent 8 words.now) (lent 2 cols.now) × Passing width (lent 8 words.now) n m j pairs.old }
    ensures { Judged width (lent 8 words.now) n m k j pairs.new result }
{
    let c = m + j;
    let z = n + j;
    if weight(words, Check(c)) != 3 {
        return false;
    }
    if !has(words, Check(c), Bit(z)) {
        return false;
    }
    let x = next_one(words, Check(c), 0);
    let y = next_one(words, Check(c), x + 1);
    if z <= y {
        return false;
    }
    if !apart(cols, 2, x, y, z) {
        return false;
    }
    fresh(words, pairs, width, n, m, j, x, y)
}

// Whether rule A holds for every added check.
fn all_rules(
    words: &[u64],
    cols: &[u64],
    pairs: &mut [u64],
    width: usize,
    n: usize,
    m: usize,
    k: usize,
) -> bool
    requires words_len { (length words.now ≡ 4096) × (length cols.now ≡ 1024) × (length pairs.old ≡ (32 * width + 1) * width) × (width ≤ 8) × (n + k ≤ 64 * width) × (m + k ≤ 512) × (m ≤ 120) }
    requires words_value { (clean 8 (n + k) (m + k) 0 words.now ≡ true) × Columns m (lent 8 words.now) (lent 2 cols.now) × Passing width (lent 8 words.now) n m 0 pairs.old }
    ensures { result ≡ rule_a (lent 8 words.now) n m k }
{
    for j in 0..k {
        if !rule_at(words, cols, pairs, width, n, m, k, j) {
            return false;
        }
    }
    true
}

// Rule A, for words with no one outside; columns are made only where there is an added check, and a table as large as the bits need.
pub fn rule_a(words: &[u64], n: usize, m: usize, k: usize) -> bool
    requires { (length words.now ≡ 4096) × (n + k ≤ 512) × (m + k ≤ 512) × (m ≤ 120) × (clean 8 (n + k) (m + k) 0 words.now ≡ true) }
    ensures { result ≡ rule_a (lent 8 words.now) n m k }
{
    if k == 0 {
        return true;
    }
    let mut cols = [0u64; 1024];
    fill(words, &mut cols, 2, m);
    if n + k <= 256 {
        let mut pairs = [0u64; 516];
        return all_rules(words, &cols, &mut pairs, 4, n, m, k);
    }
    let mut pairs = [0u64; 2056];
    all_rules(words, &cols, &mut pairs, 8, n, m, k)
}
