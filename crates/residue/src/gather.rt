// The checks that touch a set of bits.
ghost use Rattle.std.specs.Prelude.{◌≡◌, ◌*◌, ◌≤◌, length};
ghost use Rattle.parity.specs.Matrix.{lent};
ghost use Rattle.residue.specs.Rows.{Gathered};

use parity::Check;
use rows::whole::copy_words;
use sets::touches;

// The first `width` words of each of the first `checks` checks that contain a bit of the set become a row. The answer is their number.
fn gather_in(words: &[u64], width: usize, checks: usize, set: &[u64], rows: &mut [u64]) -> usize
    requires { (length words.now ≡ 4096) × (checks ≤ 512) × (length set.now ≡ 8) × (width ≤ 8) × (checks * width ≤ length rows.old) }
    ensures { Gathered (lent 8 words.now) (lent width rows.new) (width * 64) checks (lent 8 set.now 0) result }
{
    let mut count: usize = 0;
    for c in 0..checks {
        if touches(words, width, Check(c), set) {
            copy_words(words, c * 8, rows, count * width, width);
            count += 1;
        }
    }
    count
}

// The same. The number of words is known beforehand, so that each row is copied in place, by no function of the C library.
pub fn gather(words: &[u64], width: usize, checks: usize, set: &[u64], rows: &mut [u64]) -> usize
    requires { (length words.now ≡ 4096) × (checks ≤ 512) × (length set.now ≡ 8) × (width ≤ 8) × (checks * width ≤ length rows.old) }
    ensures { Gathered (lent 8 words.now) (lent width rows.new) (width * 64) checks (lent 8 set.now 0) result }
{
    match width {
        1 => gather_in(words, 1, checks, set, rows),
        2 => gather_in(words, 2, checks, set, rows),
        3 => gather_in(words, 3, checks, set, rows),
        4 => gather_in(words, 4, checks, set, rows),
        5 => gather_in(words, 5, checks, set, rows),
        6 => gather_in(words, 6, checks, set, rows),
        7 => gather_in(words, 7, checks, set, rows),
        8 => gather_in(words, 8, checks, set, rows),
        _ => gather_in(words, 0, checks, set, rows),
    }
}
