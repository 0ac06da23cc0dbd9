// The joined checks as rows of two words, which hold 128 bits: given checks have at most 120.
ghost use Rattle.std.specs.Prelude.{◌≡◌, ◌+◌, ◌*◌, ◌≤◌, ◌<◌, length};
ghost use Rattle.parity.specs.Finite.{any};
ghost use Rattle.parity.specs.Matrix.{lent};
ghost use Rattle.parity.specs.Joining.{joined};
ghost use Rattle.join.specs.Rows.{is_row, Added, Gathered, Spread};

use rows::whole::copy_rows;

// Whether row `d` has the words `x` and `y`.
fn is_row(rows: &[u64], d: usize, x: u64, y: u64) -> bool
    requires { d * 2 + 2 ≤ length rows.now }
    ensures { result ≡ is_row rows.now x y d }
{
    rows[d * 2] == x && rows[d * 2 + 1] == y
}

// Whether one of the first `checks` rows has the words `x` and `y`.
fn is_there(rows: &[u64], checks: usize, x: u64, y: u64) -> bool
    requires { checks * 2 ≤ length rows.now }
    ensures { result ≡ any checks (is_row rows.now x y) }
{
    (0..checks).any(|d| is_row(rows, d, x, y))
}

// Check `c` becomes row `at`, unless it is one of the rows before. The number of rows then, if there is room for it.
fn add(words: &[u64], c: usize, rows: &mut [u64], at: usize) -> Option<usize>
    requires { (length words.now ≡ 4096) × (c < 120) × (length rows.old ≡ 240) × (at ≤ 120) }
    ensures { Added words.now c rows.old at rows.new result }
{
    if is_there(rows, at, words[c * 8], words[c * 8 + 1]) {
        return Some(at);
    }
    if at == 120 {
        return None;
    }
    let from = c * 8;
    let to = at * 2;
    rows[to..to + 2].copy_from_slice(&words[from..from + 2]);
    Some(at + 1)
}

// The first's checks become rows, and then those of the second that are none of the rows before. The number of rows, if there is room for all.
pub fn gather(
    words1: &[u64],
    m1: usize,
    words2: &[u64],
    m2: usize,
    rows: &mut [u64],
) -> Option<usize>
    requires { (length words1.now ≡ 4096) × (m1 ≤ 120) × (length words2.now ≡ 4096) × (m2 ≤ 120) × (length rows.old ≡ 240) }
    ensures { Gathered (joined 128 (lent 8 words1.now) m1 (lent 8 words2.now) m2) rows.new result }
{
    copy_rows(words1, 8, 2, m1, rows);
    let mut at = m1;
    for c in 0..m2 {
        at = add(words2, c, rows, at)?;
    }
    Some(at)
}

// The first `checks` rows become the checks of the matrix, and all its other words 0.
pub fn write(rows: &[u64], checks: usize, words: &mut [u64])
    requires { (length rows.now ≡ 240) × (checks ≤ 120) × (length words.old ≡ 4096) }
    ensures { Spread 2 8 rows.now checks words.new }
{
    words.fill(0);
    for c in 0..checks {
        let from = c * 2;
        let to = c * 8;
        words[to..to + 2].copy_from_slice(&rows[from..from + 2]);
    }
}
