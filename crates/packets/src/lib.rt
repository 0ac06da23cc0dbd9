// Packets: each bit of the code is a packet of words, and every lane of bits at one place is determined, all by one plan.
#![tactic(auto)]

mod lengths;
mod lost;

ghost use Rattle.std.specs.Prelude.{◌≡◌, false, ◌+◌, ◌*◌, ◌^◌, ◌≤◌, length};
ghost use Rattle.parity.specs.Matrix.{cause};
ghost use Rattle.parity.specs.Calls.{wrong_byte};
ghost use Rattle.parity.specs.Packets.{packets_outcome};
ghost use Rattle.parity.specs.Causes.{answer, result_reply};
ghost use Rattle.packets.specs.Answers.{mended_packets_values};

use crate::lengths::{admit_lists, count_lanes};
use crate::lost::mend_set;
use parity::{Losses, Refusal};
use result::write;
use sets::losses::losses_of;
use sets::set_of;

// What mending packets answers: how many sent and how many added packets were recovered, how many of each are left, and how many lanes no codeword
// agrees with.
#[derive(Clone, Copy, Debug, PartialEq, Eq)]
pub struct MendedPackets {
    pub losses: Losses,
    pub odd_lanes: u64,
}

// Mends packets that no cause refuses.
fn mend_admitted(
    words: &[u64],
    n: usize,
    m: usize,
    k: usize,
    lost: &mut [u8],
    packets: &mut [u64],
    odd: &mut [u64],
) -> MendedPackets
    requires { (cause words.now n m k ≡ 0) × (length lost.old ≡ n + k) × (length packets.old ≡ (n + k) * length odd.old) × (length odd.old ≤ 2 ^ 57) × (wrong_byte 1 lost.old ≡ false) }
    ensures result_value { answer (mended_packets_values result) ≡ (packets_outcome words.now n m k lost.old packets.old odd.old).reply }
    ensures lost_after { lost.new ≡ (packets_outcome words.now n m k lost.old packets.old odd.old).lost }
    ensures packets_after { packets.new ≡ (packets_outcome words.now n m k lost.old packets.old odd.old).packets }
    ensures odd_after { odd.new ≡ (packets_outcome words.now n m k lost.old packets.old odd.old).odd }
{
    let gone = set_of(lost, 1);
    let left = mend_set(words, n + k, m + k, gone, packets, odd);
    let none = [0u64; 8];
    write(lost, &gone, &left, &none, 8);
    let losses = losses_of(&gone, &left, n);
    let odd_lanes = count_lanes(odd) as u64;
    MendedPackets { losses, odd_lanes }
}

// Mends packets by a matrix that is accepted, or refuses them by cause 10 or 11.
fn mend_accepted(
    words: &[u64],
    n: usize,
    m: usize,
    k: usize,
    lost: &mut [u8],
    packets: &mut [u64],
    odd: &mut [u64],
) -> Result<MendedPackets, Refusal>
    requires { cause words.now n m k ≡ 0 }
    ensures result_value { result_reply mended_packets_values result ≡ (packets_outcome words.now n m k lost.old packets.old odd.old).reply }
    ensures lost_after { lost.new ≡ (packets_outcome words.now n m k lost.old packets.old odd.old).lost }
    ensures packets_after { packets.new ≡ (packets_outcome words.now n m k lost.old packets.old odd.old).packets }
    ensures odd_after { odd.new ≡ (packets_outcome words.now n m k lost.old packets.old odd.old).odd }
{
    admit_lists(n + k, lost, packets, odd.len())?;
    Ok(mend_admitted(words, n, m, k, lost, packets, odd))
}

// Mends packets: bit b of the code is packet b, of as many words as `odd` has, and bit i of every packet is lane i. Each lost packet that the checks determine
// is recovered, in every lane that a codeword agrees with, and is lost no more; the other lanes stay, and are flagged in `odd`.
pub fn mend_packets(
    words: &[u64],
    n: usize,
    m: usize,
    k: usize,
    lost: &mut [u8],
    packets: &mut [u64],
    odd: &mut [u64],
) -> Result<MendedPackets, Refusal>
    ensures result_value { result_reply mended_packets_values result ≡ (packets_outcome words.now n m k lost.old packets.old odd.old).reply }
    ensures lost_after { lost.new ≡ (packets_outcome words.now n m k lost.old packets.old odd.old).lost }
    ensures packets_after { packets.new ≡ (packets_outcome words.now n m k lost.old packets.old odd.old).packets }
    ensures odd_after { odd.new ≡ (packets_outcome words.now n m k lost.old packets.old odd.old).odd }
{
    matrix::accept(words, n, m, k)?;
    mend_accepted(words, n, m, k, lost, packets, odd)
}
