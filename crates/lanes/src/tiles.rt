// Tiles: a few words of every packet are brought into rows side by side, and put back.
ghost use Rattle.std.specs.Prelude.{◌≡◌, ◌+◌, ◌*◌, ◌≤◌, length};
ghost use Rattle.parity.specs.Matrix.{lent};
ghost use Rattle.rows.specs.Whole.{word_from, Written};
ghost use Rattle.lanes.specs.Tiles.{RowFits, TileFits, Eight, Taken, Blanked, Loaded, no_flag, Returned, Unflagged, Stored, Flagged};

use crate::Part;
use rows::{contains, touches};

// The eight words of a list from `first` on.
fn eight_of(words: &[u64], first: usize) -> [u64; 8]
    requires { first + 8 ≤ length words.now }
    ensures { Eight words.now first result }
{
    let mut eight = [0u64; 8];
    eight.copy_from_slice(&words[first..first + 8]);
    eight
}

// Words from place `a` on are copied to place `b`, by eight words. All eight are read before the first is written: the compiler, which does not know that the tile is none of the packets, then moves several at once.
// The rest is copied only where there is one: a copy whose length the compiler does not know is a call of `memcpy`, for no words too.
fn copy_eights(from: &[u64], a: usize, to: &mut [u64], b: usize, count: usize)
    requires { (a + count ≤ length from.now) × (b + count ≤ length to.old) }
    ensures { Written to.old to.new b (word_from from.now a) count }
{
    let mut done: usize = 0;
    while 8 <= count - done {
        let eight = eight_of(from, a + done);
        to[b + done..b + done + 8].copy_from_slice(&eight);
        done += 8;
    }
    if done < count {
        to[b + done..b + count].copy_from_slice(&from[a + done..a + count]);
    }
}

// The words of packet `b` become the first of row `b`.
fn take_row(packets: &[u64], t: Part, b: usize, tile: &mut [u64])
    requires { RowFits t packets.now tile.old b }
    ensures { Taken (lent t.len packets.now) t.from t.count b (lent t.lanes tile.old) (lent t.lanes tile.new) }
{
    copy_eights(packets, b * t.len + t.from, tile, b * t.lanes, t.count);
}

// Row `b` becomes empty.
fn blank_row(b: usize, tile: &mut [u64], lanes: usize)
    requires { b * lanes + lanes ≤ length tile.old }
    ensures { Blanked b (lent lanes tile.old) (lent lanes tile.new) }
{
    let row = b * lanes;
    tile[row..row + lanes].fill(0);
}

// The same: where the number of words is known beforehand, they are written here, and by no other function.
fn blank(b: usize, tile: &mut [u64], lanes: usize)
    requires { b * lanes + lanes ≤ length tile.old }
    ensures { Blanked b (lent lanes tile.old) (lent lanes tile.new) }
{
    if lanes == 16 {
        blank_row(b, tile, 16);
        return;
    }
    blank_row(b, tile, lanes);
}

// The parts of the first `bits` packets become rows; a packet that is lost has an empty row.
pub fn load(packets: &[u64], t: Part, bits: usize, lost: &[u64], tile: &mut [u64])
    requires { TileFits t bits packets.now tile.old × (length lost.now ≡ 8) }
    ensures { Loaded (lent t.len packets.now) (lent 8 lost.now 0) t.from t.count bits (lent t.lanes tile.old) (lent t.lanes tile.new) }
{
    for b in 0..bits {
        if contains(lost, 8, 0, b) {
            blank(b, tile, t.lanes);
        } else {
            take_row(packets, t, b, tile);
        }
    }
}

// Row `b` is put back into its packet, in the lanes that are not flagged.
fn return_row(packets: &mut [u64], t: Part, b: usize, tile: &[u64], flags: &[u64])
    requires { RowFits t packets.old tile.now b × (t.lanes ≤ length flags.now) }
    ensures { Returned t.from t.count b (lent t.lanes tile.now) (lent t.lanes flags.now 0) (lent t.len packets.old) (lent t.len packets.new) }
{
    let first = b * t.len + t.from;
    let row = b * t.lanes;
    let count = t.count;
    for i in 0..count {
        packets[first + i] = (packets[first + i] & flags[i]) | (tile[row + i] & !flags[i]);
    }
}

// Row `b` is put back into its packet, in all lanes.
fn return_whole(packets: &mut [u64], t: Part, b: usize, tile: &[u64])
    requires { RowFits t packets.old tile.now b }
    ensures { Returned t.from t.count b (lent t.lanes tile.now) no_flag (lent t.len packets.old) (lent t.len packets.new) }
{
    copy_eights(tile, b * t.lanes, packets, b * t.len + t.from, t.count);
}

// Row `b` is put back into its packet, in the lanes that are not flagged: where none is, what the packet had is not read.
fn give_back(packets: &mut [u64], t: Part, b: usize, tile: &[u64], flags: &[u64], some: bool)
    requires { RowFits t packets.old tile.now b × (t.lanes ≤ length flags.now) × Unflagged some (lent t.lanes flags.now 0) }
    ensures { Returned t.from t.count b (lent t.lanes tile.now) (lent t.lanes flags.now 0) (lent t.len packets.old) (lent t.len packets.new) }
{
    if some {
        return_row(packets, t, b, tile, flags);
        return;
    }
    return_whole(packets, t, b, tile);
}

// The rows of the packets that were lost and are not left are put back, in the lanes that are not flagged.
pub fn store(
    packets: &mut [u64],
    t: Part,
    bits: usize,
    lost: &[u64],
    left: &[u64],
    tile: &[u64],
    flags: &[u64],
)
    requires { TileFits t bits packets.old tile.now × (length lost.now ≡ 8) × (length left.now ≡ 8) × (t.lanes ≤ length flags.now) }
    ensures { Stored (lent 8 lost.now 0) (lent 8 left.now 0) t.from t.count bits (lent t.lanes tile.now) (lent t.lanes flags.now 0) (lent t.len packets.old) (lent t.len packets.new) }
{
    let some = touches(flags, 0, flags, 0, t.lanes, t.lanes);
    for b in 0..bits {
        if contains(lost, 8, 0, b) {
            if !contains(left, 8, 0, b) {
                give_back(packets, t, b, tile, flags, some);
            }
        }
    }
}

// The flags of a tile's lanes are put among those of all lanes.
pub fn put_flags(odd: &mut [u64], t: Part, flags: &[u64])
    requires { (t.from + t.count ≤ length odd.old) × (t.count ≤ t.lanes) × (t.lanes ≤ length flags.now) }
    ensures { Flagged t.from t.count (lent t.lanes flags.now 0) (lent (length odd.old) odd.old 0) (lent (length odd.old) odd.new 0) }
{
    odd[t.from..t.from + t.count].copy_from_slice(&flags[..t.count]);
}
