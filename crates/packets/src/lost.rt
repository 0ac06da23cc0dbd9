// Packets mended, on the set of those that are lost.
ghost use Rattle.std.specs.Prelude.{◌≡◌, ◌*◌, ◌≤◌, ◌<◌, length};
ghost use Rattle.parity.specs.Finite.{count};
ghost use Rattle.parity.specs.Matrix.{lent};
ghost use Rattle.sets.specs.Sets.{Short};
ghost use Rattle.lanes.specs.Lanes.{checks_of, bits_of};
ghost use Rattle.plan.specs.Order.{Peeled};
ghost use Rattle.packets.specs.Sets.{SetMended, Rooms};

use elimination::reduce_in;
use lanes::mend::mend;
use lanes::{Plan, Step};
use plan::alone::list_alone;
use plan::order::{join_touched, settle};
use residue::gather::gather;
use rows::words_of;
use sets::size;

// What a list of steps has where no step is noted.
const NO_STEP: Step = Step { check: 0, bit: 0 };

// Peeling leaves nothing: its plan is carried out in every lane.
fn finish_peeled(
    words: &[u64],
    p: Plan,
    lost: &[u64],
    left: &[u64],
    skip: &[u64],
    steps: &[Step],
    packets: &mut [u64],
    odd: &mut [u64],
)
    requires rooms { Rooms p words.now lost.now left.now skip.now packets.old odd.old × (count 512 (lent 8 left.now 0) ≡ 0) }
    requires short { Short p.bits (lent 8 lost.now 0) × Peeled (lent 8 words.now) (p.used * 64) p.checks (lent 8 lost.now 0) (lent 8 left.now 0) (checks_of steps.now) (bits_of steps.now) (length steps.now) (lent 8 skip.now 0) }
    ensures { SetMended (lent 8 words.now) p.bits p.checks (length odd.old * 64) (lent 8 lost.now 0) (lent 8 left.now 0) (lent (length odd.old) packets.old) (lent (length odd.old) packets.new) (lent (length odd.old) odd.new 0) }
{
    let q = Plan {
        first: 0,
        end: 0,
        ..p
    };
    mend(words, skip, steps, &[], &[], q, lost, left, packets, odd);
}

// What peeling leaves is reduced, and the whole plan is carried out in every lane: also the steps by reduced rows.
fn finish(
    words: &[u64],
    p: Plan,
    lost: &[u64],
    residue: &[u64],
    skip: &[u64],
    steps: &[Step],
    left: &mut [u64],
    packets: &mut [u64],
    odd: &mut [u64],
)
    requires rooms { Rooms p words.now lost.now residue.now skip.now packets.old odd.old × (left.old ≡ residue.now) }
    requires short { Short p.bits (lent 8 lost.now 0) × Peeled (lent 8 words.now) (p.used * 64) p.checks (lent 8 lost.now 0) (lent 8 residue.now 0) (checks_of steps.now) (bits_of steps.now) (length steps.now) (lent 8 skip.now 0) }
    ensures { SetMended (lent 8 words.now) p.bits p.checks (length odd.old * 64) (lent 8 lost.now 0) (lent 8 left.new 0) (lent (length odd.old) packets.old) (lent (length odd.old) packets.new) (lent (length odd.old) odd.new 0) }
{
    let mut rows = [0u64; 4096];
    let mut pivots = [0usize; 512];
    let mut by_rows = [NO_STEP; 512];
    let end = gather(words, p.used, p.checks, residue, &mut rows);
    let r = reduce_in(&mut rows, p.used, end, residue, &mut pivots);
    let more = list_alone(&rows, p.used, &pivots, r, residue, left, &mut by_rows);
    let q = Plan { first: r, end, ..p };
    mend(
        words,
        skip,
        steps,
        &rows,
        &by_rows[..more],
        q,
        lost,
        left,
        packets,
        odd,
    );
}

// The packets of a set that are lost are recovered, as far as the checks determine them, in the lanes that a codeword agrees with; the other lanes are flagged. The answer
// is the set of those that are left.
fn mend_lost(
    words: &[u64],
    p: Plan,
    lost: [u64; 8],
    packets: &mut [u64],
    odd: &mut [u64],
) -> [u64; 8]
    requires words_len { (length words.now ≡ 4096) × (p.used ≤ 8) × (p.bits ≤ p.used * 64) × (p.checks ≤ 512) × (length lost ≡ 8) × (length packets.old ≡ p.bits * length odd.old) × Short p.bits (lent 8 lost 0) }
    requires lanes_nonzero { (0 < p.lanes) × (p.lanes ≤ 16) × (p.used * 64 * p.lanes ≤ 2048) }
    ensures { (length result ≡ 8) × SetMended (lent 8 words.now) p.bits p.checks (length odd.old * 64) (lent 8 lost 0) (lent 8 result 0) (lent (length odd.old) packets.old) (lent (length odd.old) packets.new) (lent (length odd.old) odd.new 0) }
{
    let mut left = lost;
    let mut skip = [0u64; 8];
    let mut steps = [NO_STEP; 512];
    let used = p.used;
    let m = p.checks;
    let count = settle(words, used, m, &mut left, &mut skip, &mut steps);
    join_touched(words, used, m, &left, &mut skip);
    let steps = &steps[..count];
    if size(&left) == 0 {
        finish_peeled(words, p, &lost, &left, &skip, steps, packets, odd);
        return left;
    }
    let residue = left;
    finish(
        words, p, &lost, &residue, &skip, steps, &mut left, packets, odd,
    );
    left
}

// How many words of every packet a tile has where the bits take more than two words: with all of them it has no more than 2,048.
fn fewer_lanes(used: usize) -> usize
    requires { used ≤ 8 }
    ensures { (0 < result) × (result ≤ 16) × (used * 64 * result ≤ 2048) }
{
    if 4 < used {
        return 4;
    }
    8
}

// The same, in tiles of sixteen words, or of fewer where there are more than 128 bits. `mend_lost` is called at two places that are not alike, so that the compiler leaves it a
// function of its own: its rows and lists are then on the stack while they are used, and not while the matrix is accepted.
pub fn mend_set(
    words: &[u64],
    bits: usize,
    checks: usize,
    lost: [u64; 8],
    packets: &mut [u64],
    odd: &mut [u64],
) -> [u64; 8]
    requires { (length words.now ≡ 4096) × (bits ≤ 512) × (checks ≤ 512) × (length lost ≡ 8) × (length packets.old ≡ bits * length odd.old) × Short bits (lent 8 lost 0) }
    ensures { (length result ≡ 8) × SetMended (lent 8 words.now) bits checks (length odd.old * 64) (lent 8 lost 0) (lent 8 result 0) (lent (length odd.old) packets.old) (lent (length odd.old) packets.new) (lent (length odd.old) odd.new 0) }
{
    let used = words_of(bits);
    let p = Plan {
        used,
        bits,
        checks,
        first: 0,
        end: 0,
        lanes: 16,
    };
    if 2 < used {
        let lanes = fewer_lanes(used);
        return mend_lost(words, Plan { lanes, ..p }, lost, packets, odd);
    }
    let after = mend_lost(words, p, lost, packets, odd);
    if size(&after) == 0 {
        return [0u64; 8];
    }
    after
}
