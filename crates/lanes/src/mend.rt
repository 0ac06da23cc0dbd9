// A plan carried out in the lanes of packets, tile by tile.
ghost use Rattle.std.specs.Prelude.{◌≡◌, ◌+◌, ◌*◌, ◌≤◌, ◌<◌, length};
ghost use Rattle.parity.specs.Matrix.{lent};
ghost use Rattle.lanes.specs.Lanes.{Mends};
ghost use Rattle.lanes.specs.Tiles.{plan_lists, Carried, Tiled, Empty, TileMended, Mended};

use crate::run::{solve_in, test_in};
use crate::tiles::{load, put_flags, store};
use crate::{Part, Plan, Step};

// The plan is carried out in the lanes of a tile. The answer has the lanes in which a test fails.
fn run(
    words: &[u64],
    skip: &[u64],
    steps: &[Step],
    reduced: &[u64],
    more: &[Step],
    p: Plan,
    tile: &mut [u64],
) -> [u64; 16]
    requires { Carried p words.now skip.now steps.now reduced.now more.now × (p.used * 64 * p.lanes ≤ length tile.old) × (p.lanes ≤ 16) }
    ensures { (length result ≡ 16) × Mends (lent 8 words.now) (lent p.used reduced.now) (p.used * 64) p.checks (plan_lists p (lent 8 skip.now 0) steps.now more.now) (lent p.lanes tile.old) (lent p.lanes tile.new) (lent p.lanes result 0) }
{
    let none = [0u64; 8];
    let mut flags = [0u64; 16];
    solve_in(words, 8, p.checks, steps, p, tile);
    test_in(words, 8, 0, p.checks, skip, p, tile, &mut flags);
    test_in(reduced, p.used, p.first, p.end, &none, p, tile, &mut flags);
    solve_in(reduced, p.used, p.end, more, p, tile);
    flags
}

// How many words the tile from `from` on has.
fn part(len: usize, from: usize, lanes: usize) -> usize
    requires { (from < len) × (0 < lanes) }
    ensures { (0 < result) × (result ≤ lanes) × (from + result ≤ len) }
{
    lanes.min(len - from)
}

// The words of every packet from `from` on that a tile takes are mended. The answer is their number.
fn mend_tile(
    words: &[u64],
    skip: &[u64],
    steps: &[Step],
    reduced: &[u64],
    more: &[Step],
    p: Plan,
    lost: &[u64],
    left: &[u64],
    packets: &mut [u64],
    odd: &mut [u64],
    tile: &mut [u64],
    from: usize,
) -> usize
    requires carried { Carried p words.now skip.now steps.now reduced.now more.now × Tiled p (length tile.old) lost.now left.now packets.old odd.old }
    requires empty { Empty p.bits (lent p.lanes tile.old) × (from < length odd.old) }
    ensures { (0 < result) × (from + result ≤ length odd.old) × Empty p.bits (lent p.lanes tile.new) × TileMended (lent 8 words.now) (lent p.used reduced.now) (p.used * 64) p.checks (plan_lists p (lent 8 skip.now 0) steps.now more.now) (lent 8 lost.now 0) (lent 8 left.now 0) p.bits from result (lent (length odd.old) packets.old) (lent (length odd.old) packets.new) (lent (length odd.old) odd.old 0) (lent (length odd.old) odd.new 0) }
{
    let len = odd.len();
    let count = part(len, from, p.lanes);
    let t = Part {
        len,
        from,
        count,
        lanes: p.lanes,
    };
    load(packets, t, p.bits, lost, tile);
    let flags = run(words, skip, steps, reduced, more, p, tile);
    store(packets, t, p.bits, lost, left, tile, &flags);
    put_flags(odd, t, &flags);
    count
}

// The packets are mended, tile by tile.
pub fn mend(
    words: &[u64],
    skip: &[u64],
    steps: &[Step],
    reduced: &[u64],
    more: &[Step],
    p: Plan,
    lost: &[u64],
    left: &[u64],
    packets: &mut [u64],
    odd: &mut [u64],
)
    requires { Carried p words.now skip.now steps.now reduced.now more.now × Tiled p 2048 lost.now left.now packets.old odd.old }
    ensures { Mended (lent 8 words.now) (lent p.used reduced.now) (p.used * 64) p.checks (plan_lists p (lent 8 skip.now 0) steps.now more.now) (lent 8 lost.now 0) (lent 8 left.now 0) p.bits (length odd.old * 64) (lent (length odd.old) packets.old) (lent (length odd.old) packets.new) (lent (length odd.old) odd.new 0) }
{
    let mut tile = [0u64; 2048];
    let mut from: usize = 0;
    while from < odd.len() {
        from += mend_tile(
            words, skip, steps, reduced, more, p, lost, left, packets, odd, &mut tile, from,
        );
    }
}
