// Performing the splits of a record on the words of its checks.
ghost use Rattle.std.specs.Prelude.{◌≡◌, ◌≤◌, length};
ghost use Rattle.parity.specs.Matrix.{lent};
ghost use Rattle.parity.specs.Sound.{Sound};
ghost use Rattle.columns.specs.Columns.{Columns};
ghost use Rattle.carried.specs.Perform.{Performed, Performs};
ghost use Rattle.carried.specs.Recover.{WithColumns};

use columns::splits::part;
use columns::{fill, shared};
use exchange::merge::merge;
use parity::{Bit, Check};
use reading::words::{Word, read};

// Performs the split that a kind 6 word with the payload `x` carries, if it would not be refused; says whether it is made.
fn perform_split(
    words: &mut [u64],
    cols: &mut [u64],
    n: usize,
    m: usize,
    k: usize,
    x: usize,
) -> bool
    requires with_columns { WithColumns words.old cols.old }
    requires sound { Sound (lent 8 words.old) n m k × Columns m (lent 8 words.old) (lent 2 cols.old) }
    ensures { Performed (lent 8 words.old) (lent 8 words.new) (lent 2 cols.new) n m k x result }
{
    let u = x % 512;
    let v = x / 512;
    let z = n + k;
    if k == 392 {
        return false;
    }
    if v <= u {
        return false;
    }
    if z <= v {
        return false;
    }
    if shared(cols, 2, Bit(u), Bit(v)) < 2 {
        return false;
    }
    part(cols, 2, Bit(u), Bit(v), Bit(z));
    merge(words, Check(m + k), Bit(u), Bit(v), Bit(z), cols, 2, z);
    true
}

// Performs the splits of the kind 6 words from place `p` on, up to a word that is none or whose split would be refused, and answers how many they are.
pub fn perform(source: &[u32], words: &mut [u64], n: usize, m: usize, p: usize) -> usize
    requires words_len { (length words.old ≡ 4096) × (p ≤ length source.now) }
    requires sound { Sound (lent 8 words.old) n m 0 }
    ensures { Performs source.now n m p (lent 8 words.old) (lent 8 words.new) result }
{
    let mut cols = [0u64; 1024];
    fill(words, &mut cols, 2, m);
    let left = source.len() - p;
    for k in 0..left {
        let Word::Split(x) = read(source[p + k]) else {
            return k;
        };
        if !perform_split(words, &mut cols, n, m, k, x) {
            return k;
        }
    }
    left
}
