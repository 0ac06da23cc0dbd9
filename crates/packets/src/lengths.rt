// The lists that are lent: causes 10 and 11, and the lanes that are flagged.
ghost use Rattle.std.specs.Prelude.{◌≡◌, [], ◌*◌, ◌^◌, ◌≤◌, ◌<◌, eqb, length};
ghost use Rattle.parity.specs.Finite.{count};
ghost use Rattle.parity.specs.Matrix.{lent};
ghost use Rattle.parity.specs.Causes.{answer, result_reply, no_values};
ghost use Rattle.packets.specs.Answers.{lists_reply};

use parity::Refusal;
use sets::bytes::first_above;

// Whether `total` is `parts` times `len`, by a quotient: the product may be too large for a number of the machine.
fn is_product(total: usize, parts: usize, len: usize) -> bool
    requires { 0 < parts }
    ensures { result ≡ eqb total (parts * len) }
{
    total / parts == len && total % parts == 0
}

// Takes the lists that are lent with a matrix of `bits` bits, or refuses them by cause 10 or 11.
pub fn admit_lists(bits: usize, lost: &[u8], packets: &[u64], len: usize) -> Result<(), Refusal>
    requires { 0 < bits }
    ensures { result_reply no_values result ≡ lists_reply bits lost.now packets.now len (answer []) }
{
    if lost.len() != bits {
        return Err(Refusal::WrongLength);
    }
    if !is_product(packets.len(), bits, len) {
        return Err(Refusal::WrongLength);
    }
    if 0x200_0000_0000_0000 < len {
        return Err(Refusal::WrongLength);
    }
    match first_above(lost, 1) {
        Some(place) => Err(Refusal::WrongByte { place }),
        None => Ok(()),
    }
}

// How many lanes are flagged.
pub fn count_lanes(odd: &[u64]) -> usize
    requires { length odd.now ≤ 2 ^ 57 }
    ensures { result ≡ count (length odd.now * 64) (lent (length odd.now) odd.now 0) }
{
    let mut n: usize = 0;
    for x in odd {
        n += x.count_ones() as usize;
    }
    n
}
