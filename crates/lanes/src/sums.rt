// Sums modulo 2 of the rows that a check contains, in all lanes of a tile at once.
ghost use Rattle.std.specs.Prelude.{◌≡◌, ◌+◌, ◌*◌, ◌≤◌, ◌<◌, length, replicate};
ghost use Rattle.parity.specs.Matrix.{lent};
ghost use Rattle.lanes.specs.Lanes.{Meets, WordAdded, SumOf};

use rows::whole::add_row;

// The rows of the tile at the ones of `x`, word `i` of a check, are added to `acc`.
fn add_word(acc: &mut [u64], tile: &[u64], lanes: usize, i: usize, x: u64)
    requires { (lanes ≤ length acc.old) × (i < 8) × ((i * 64 + 64) * lanes ≤ length tile.now) }
    ensures { WordAdded (lent lanes tile.now) i x (lent lanes acc.old 0) (lent lanes acc.new 0) }
{
    let mut rest = x;
    while rest != 0 {
        let t = rest.trailing_zeros() as usize;
        add_row(acc, lanes, 0, tile, i * 64 + t);
        rest = rest & (rest - 1);
    }
}

// The rows of the tile that check `c`, of `width` words, contains in its first `used` are added to `acc`, which is empty.
fn add_check(
    rows: &[u64],
    width: usize,
    used: usize,
    c: usize,
    tile: &[u64],
    lanes: usize,
    acc: &mut [u64],
)
    requires { Meets width used lanes rows.now tile.now c × (acc.old ≡ replicate 16 0) }
    ensures { SumOf (lent width rows.now) (used * 64) c (lent lanes tile.now) (lent lanes acc.new 0) }
{
    for i in 0..used {
        add_word(acc, tile, lanes, i, rows[c * width + i]);
    }
}

// The sum, in each lane, of the bits that check `c` contains.
pub fn sum_of(
    rows: &[u64],
    width: usize,
    used: usize,
    c: usize,
    tile: &[u64],
    lanes: usize,
) -> [u64; 16]
    requires { Meets width used lanes rows.now tile.now c }
    ensures { (length result ≡ 16) × SumOf (lent width rows.now) (used * 64) c (lent lanes tile.now) (lent lanes result 0) }
{
    let mut acc = [0u64; 16];
    add_check(rows, width, used, c, tile, lanes, &mut acc);
    acc
}
