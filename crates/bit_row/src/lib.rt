// A bit's messages, read into the row and written back.
#![tactic(auto)]

ghost use Rattle.std.specs.Prelude.{◌≡◌, ◌+◌, ◌*◌, ◌<◌};
ghost use Rattle.parity.specs.Finite.{count};
ghost use Rattle.parity.specs.Matrix.{lent};
ghost use Rattle.messages.specs.Memory.{AtBit, LaidAcross, Laid, across, column, Cursors};
ghost use Rattle.bit_row.specs.Row.{Gathering, Spread};

use messages::copying::{copy, lowest};

// The messages of bit `b` with the checks of word `i` of its column are read into the row from its place `first` on, and these checks' cursors go on to the
// next bit. Returns the row's place after them.
fn gather_word(
    cols: &[u64],
    b: usize,
    i: usize,
    first: usize,
    at: &mut [usize],
    tags: &mut [u8],
    values: &mut [f32],
) -> usize
    requires laid { Laid cols.now (across (lent 8 cols.now)) tags.old values.old }
    requires b_bound { (b < 512) × (i < 8) × Gathering (across (lent 8 cols.now)) 512 b (i * 64) tags.old values.old first at.old tags.old values.old }
    ensures { Gathering (across (lent 8 cols.now)) 512 b (i * 64 + 64) tags.old values.old result at.new tags.new values.new }
{
    let mut d = first;
    let mut rest = cols[b * 8 + i];
    while rest != 0 {
        let c = lowest(i, rest);
        let p = at[c];
        copy(tags, values, p, 65024 + d);
        at[c] = p + 1;
        d += 1;
        rest = rest & (rest - 1);
    }
    d
}

// The messages of bit `b` are read into the row, and the cursors go on to the next bit. Returns how many there are.
pub fn gather(
    cols: &[u64],
    checks: usize,
    b: usize,
    at: &mut [usize],
    tags: &mut [u8],
    values: &mut [f32],
) -> usize
    requires laid_across { LaidAcross cols.now tags.old values.old checks }
    requires at_bit { AtBit cols.now b at.old }
    ensures { Gathering (across (lent 8 cols.now)) 512 b checks tags.old values.old result at.new tags.new values.new }
{
    let used = checks.div_ceil(64);
    let mut d: usize = 0;
    for i in 0..used {
        d = gather_word(cols, b, i, d, at, tags, values);
    }
    d
}

// The row from its place `first` on is written back to the messages of bit `b` with the checks of word `i` of its column. The cursors have gone on to the
// next bit. Returns the row's place after them.
fn scatter_word(
    cols: &[u64],
    b: usize,
    i: usize,
    first: usize,
    at: &[usize],
    tags: &mut [u8],
    values: &mut [f32],
) -> usize
    requires laid { Laid cols.now (across (lent 8 cols.now)) tags.old values.old }
    requires b_bound { (b < 512) × (i < 8) × Cursors (across (lent 8 cols.now)) 512 (b + 1) at.now × (first ≡ count (i * 64) (column (across (lent 8 cols.now)) b)) }
    ensures value { result ≡ count (i * 64 + 64) (column (across (lent 8 cols.now)) b) }
    ensures spread { Spread (across (lent 8 cols.now)) 512 b (i * 64) (i * 64 + 64) tags.old values.old tags.new values.new }
{
    let mut d = first;
    let mut rest = cols[b * 8 + i];
    while rest != 0 {
        let p = at[lowest(i, rest)] - 1;
        copy(tags, values, 65024 + d, p);
        d += 1;
        rest = rest & (rest - 1);
    }
    d
}

// The row is written back to the messages of bit `b`. The cursors have gone on to the next bit.
pub fn scatter(
    cols: &[u64],
    checks: usize,
    b: usize,
    at: &[usize],
    tags: &mut [u8],
    values: &mut [f32],
)
    requires laid_across { LaidAcross cols.now tags.old values.old checks }
    requires b_bound { (b < 512) × Cursors (across (lent 8 cols.now)) 512 (b + 1) at.now }
    ensures { Spread (across (lent 8 cols.now)) 512 b 0 checks tags.old values.old tags.new values.new }
{
    let used = checks.div_ceil(64);
    let mut d: usize = 0;
    for i in 0..used {
        d = scatter_word(cols, b, i, d, at, tags, values);
    }
}
