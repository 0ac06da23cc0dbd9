// Words that are copied, and whole rows added to each other.
ghost use Rattle.std.specs.Prelude.{◌≡◌, ◌+◌, ◌*◌, ◌≤◌, length};
ghost use Rattle.parity.specs.Matrix.{lent};
ghost use Rattle.rows.specs.Whole.{word_from, Written, RowsCopied, plus};

// The `count` words of `from` at place `a` and behind it become those of `to` at place `b`.
pub fn copy_words(from: &[u64], a: usize, to: &mut [u64], b: usize, count: usize)
    requires { (a + count ≤ length from.now) × (b + count ≤ length to.old) }
    ensures { Written to.old to.new b (word_from from.now a) count }
{
    to[b..b + count].copy_from_slice(&from[a..a + count]);
}

// The first `width` of the `wide` words of each of the first `checks` rows become its row.
pub fn copy_rows(from: &[u64], wide: usize, width: usize, checks: usize, rows: &mut [u64])
    requires { (checks * wide ≤ length from.now) × (width ≤ wide) × (checks * width ≤ length rows.old) }
    ensures { RowsCopied wide width from.now rows.new checks }
{
    for c in 0..checks {
        let i = c * wide;
        let j = c * width;
        rows[j..j + width].copy_from_slice(&from[i..i + width]);
    }
}

// Row `q` of `row` is added to row `c`, modulo 2.
pub fn add_row(rows: &mut [u64], width: usize, c: usize, row: &[u64], q: usize)
    requires { (c * width + width ≤ length rows.old) × (q * width + width ≤ length row.now) }
    ensures { lent width rows.new ≡ plus c (lent width row.now q) (lent width rows.old) }
{
    for i in 0..width {
        rows[c * width + i] ^= row[q * width + i];
    }
}
