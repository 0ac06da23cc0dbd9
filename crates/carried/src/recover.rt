// Taking all splits of an accepted matrix back, on the columns of its given checks, as far as the splits made it.
ghost use Rattle.std.specs.Prelude.{◌≡◌, ◌+◌, ◌<◌, length};
ghost use Rattle.parity.specs.Matrix.{lent};
ghost use Rattle.parity.specs.Sound.{Sound};
ghost use Rattle.rows.specs.Rows.{Empty};
ghost use Rattle.columns.specs.Columns.{Columns};
ghost use Rattle.carried.specs.Recover.{WithColumns, standing, Raw, BackOne, AllBack};

use columns::splits::join;
use columns::three::apart;
use columns::{fill, fill_checks};
use parity::{Bit, Check};
use rows::ones::next_one;
use rows::weight;

// Takes back the newest of `j + 1` splits, if its check keeps rule A and two or more other checks contain its bit; says whether it does.
fn back_one(words: &[u64], cols: &mut [u64], n: usize, m: usize, j: usize) -> bool
    requires with_columns { WithColumns words.now cols.old }
    requires raw { Raw (standing (lent 8 words.now) (lent 2 cols.old) m (j + 1)) n m (j + 1) × Columns m (standing (lent 8 words.now) (lent 2 cols.old) m (j + 1)) (lent 2 cols.old) }
    ensures back_one { BackOne (standing (lent 8 words.now) (lent 2 cols.old) m (j + 1)) (standing (lent 8 words.now) (lent 2 cols.new) m j) (n + j) (m + j) result }
    ensures columns { Columns m (standing (lent 8 words.now) (lent 2 cols.new) m j) (lent 2 cols.new) }
{
    let z = n + j;
    let c = m + j;
    let u = next_one(words, Check(c), 0);
    let v = next_one(words, Check(c), u + 1);
    if !apart(cols, 2, u, v, z) {
        return false;
    }
    if weight(cols, 2, z) < 2 {
        return false;
    }
    join(cols, 2, Bit(u), Bit(v), Bit(z));
    true
}

// Takes back all splits, the newest first; says whether splits made the matrix.
fn each_back(words: &[u64], cols: &mut [u64], n: usize, m: usize, k: usize) -> bool
    requires with_columns { WithColumns words.now cols.old }
    requires sound { Sound (lent 8 words.now) n m k × Columns m (lent 8 words.now) (lent 2 cols.old) }
    ensures all_back { AllBack (lent 8 words.now) (standing (lent 8 words.now) (lent 2 cols.new) m 0) n m k result }
    ensures columns { Columns m (standing (lent 8 words.now) (lent 2 cols.new) m 0) (lent 2 cols.new) }
{
    for j in (0..k).rev() {
        if !back_one(words, cols, n, m, j) {
            return false;
        }
    }
    true
}

// Says whether splits made an accepted matrix, and puts its checks before them into rows of two words.
pub fn all_back(words: &[u64], rows: &mut [u64], n: usize, m: usize, k: usize) -> bool
    requires { (length words.now ≡ 4096) × (length rows.old ≡ 256) × Empty (lent 2 rows.old) × Sound (lent 8 words.now) n m k }
    ensures { AllBack (lent 8 words.now) (lent 2 rows.new) n m k result }
{
    let mut cols = [0u64; 1024];
    fill(words, &mut cols, 2, m);
    if !each_back(words, &mut cols, n, m, k) {
        return false;
    }
    fill_checks(&cols, 2, 2, rows, 2, n);
    true
}
