// Losses counted in sent bits and in added bits.
ghost use Rattle.std.specs.Prelude.{◌≡◌, true, ◌+◌, ◌-◌, ◌<◌, length};
ghost use Rattle.parity.specs.Finite.{count};
ghost use Rattle.parity.specs.Matrix.{lent};
ghost use Rattle.parity.specs.Words.{within};
ghost use Rattle.parity.specs.Causes.{loss_values};
ghost use Rattle.sets.specs.Losses.{set_losses};

use crate::{size, size_below};
use parity::Losses;

// How many sent bits and how many added bits a set has.
#[derive(Clone, Copy)]
struct Sizes {
    sent: u64,
    added: u64,
}

// The sizes of a set, whose sent bits are those below `n`.
fn sizes_of(set: &[u64], n: usize) -> Sizes
    requires { (length set.now ≡ 8) × (n < 512) }
    ensures { (result.sent ≡ count n (lent 8 set.now 0)) × (result.added ≡ count (512 - n) (λ j. lent 8 set.now 0 (n + j))) }
{
    let sent = size_below(set, n);
    let all = size(set);
    Sizes {
        sent,
        added: all - sent,
    }
}

// What of a set of lost bits was recovered, and what is left. The sent bits are those below `n`.
pub fn losses_of(lost: &[u64], left: &[u64], n: usize) -> Losses
    requires { (length lost.now ≡ 8) × (length left.now ≡ 8) × (n < 512) × (within 512 (lent 8 left.now 0) (lent 8 lost.now 0) ≡ true) }
    ensures { loss_values result ≡ set_losses n (512 - n) (lent 8 lost.now 0) (lent 8 left.now 0) }
{
    let before = sizes_of(lost, n);
    let after = sizes_of(left, n);
    Losses {
        recovered_sent: before.sent - after.sent,
        recovered_added: before.added - after.added,
        left_sent: after.sent,
        left_added: after.added,
    }
}
