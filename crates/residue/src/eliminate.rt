// Elimination in the bits of the residue, in as much room as the checks take.
ghost use Rattle.std.specs.Prelude.{◌*◌, ◌≤◌, length};
ghost use Rattle.residue.specs.Sets.{Posed, Eliminated};

use crate::gather::gather;
use elimination::reduce_in;
use pivots::{even_from, write_pivots};

// Elimination with the checks that touch the residue, in rows of `width` words that are lent, and so are the places of the pivots. Whether some
// codeword agrees with the known bits; if so, each bit that is determined leaves `left`, and enters `values` if it is a one.
fn eliminate_in(
    words: &[u64],
    width: usize,
    bits: usize,
    checks: usize,
    residue: &[u64],
    known: &[u64],
    left: &mut [u64],
    values: &mut [u64],
    rows: &mut [u64],
    pivots: &mut [usize],
) -> bool
    requires { Posed width words.now bits checks residue.now known.now left.old values.old × (checks * width ≤ length rows.old) × (checks ≤ length pivots.old) }
    ensures { Eliminated words.now bits checks residue.now known.now result left.new values.new }
{
    let count = gather(words, width, checks, residue, rows);
    let r = reduce_in(rows, width, count, residue, pivots);
    if !even_from(rows, width, r, count, known) {
        return false;
    }
    write_pivots(rows, width, &pivots[..r], residue, known, left, values);
    true
}

// The same, with room for rows of `ROOM` words in all, and for `CHECKS` pivots.
fn eliminate_with<const ROOM: usize, const CHECKS: usize>(
    words: &[u64],
    width: usize,
    bits: usize,
    checks: usize,
    residue: &[u64],
    known: &[u64],
    left: &mut [u64],
    values: &mut [u64],
) -> bool
    requires { Posed width words.now bits checks residue.now known.now left.old values.old × (checks ≤ CHECKS) × (checks * width ≤ ROOM) × (CHECKS ≤ 512) × (ROOM ≤ 4096) }
    ensures { Eliminated words.now bits checks residue.now known.now result left.new values.new }
{
    let mut rows = [0u64; ROOM];
    let mut pivots = [0usize; CHECKS];
    eliminate_in(
        words,
        width,
        bits,
        checks,
        residue,
        known,
        left,
        values,
        &mut rows,
        &mut pivots,
    )
}

// The same: to clear the room of any matrix takes longer than the elimination of few checks, so a matrix of few checks of one word and one of two or three
// words have less.
pub fn eliminate(
    words: &[u64],
    width: usize,
    bits: usize,
    checks: usize,
    residue: &[u64],
    known: &[u64],
    left: &mut [u64],
    values: &mut [u64],
) -> bool
    requires { Posed width words.now bits checks residue.now known.now left.old values.old }
    ensures { Eliminated words.now bits checks residue.now known.now result left.new values.new }
{
    if checks <= 64 && checks * width <= 64 {
        return eliminate_with::<64, 64>(words, width, bits, checks, residue, known, left, values);
    }
    if checks <= 128 && checks * width <= 512 {
        return eliminate_with::<512, 128>(words, width, bits, checks, residue, known, left, values);
    }
    eliminate_with::<4096, 512>(words, width, bits, checks, residue, known, left, values)
}
