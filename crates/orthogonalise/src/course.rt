// Orthogonalising an accepted matrix.
ghost use Rattle.std.specs.Prelude.{◌≡◌, ◌+◌, ◌*◌, ◌-◌, ◌/◌, ◌≤◌, ◌<◌, length};
ghost use Rattle.parity.specs.Matrix.{lent};
ghost use Rattle.parity.specs.Causes.{held_values, refusal, refusal_of, result_reply};
ghost use Rattle.parity.specs.Sound.{Sound};
ghost use Rattle.orthogonalise.specs.Answers.{orthogonalised_values};
ghost use Rattle.orthogonalise.specs.Turns.{Ready, Turned, Ended};

use crate::Orthogonalised;
use choice::bounds::{Pair, pick, weights, widen};
use columns::fill;
use columns::splits::part;
use exchange::merge::merge;
use pairs::held::holders;
use parity::{Bit, Check, Holders, Refusal};

// The split of `u` and `v` on the words and on the columns, whose new bit `z` the bounds take in; answers the lowest and the highest check that contained
// both, from the column of `z`.
fn turn(
    words: &mut [u64],
    cols: &mut [u64],
    bound: &mut [u64],
    c: Check,
    u: Bit,
    v: Bit,
    z: Bit,
) -> Option<Holders>
    requires words_len { (length words.old ≡ 4096) × (length cols.old ≡ 1024) × (length bound.old ≡ 512) × (c.0 < 512) × (u.0 < v.0) × (v.0 < z.0) × (z.0 < 512) }
    requires ready { Ready (lent 8 words.old) (lent 2 cols.old) z.0 c.0 u.0 v.0 }
    ensures { Turned (lent 8 words.old) (lent 8 words.new) (lent 2 cols.old) (lent 2 cols.new) bound.old bound.new z.0 c.0 u.0 v.0 (held_values result) }
{
    part(cols, 2, u, v, z);
    merge(words, c, u, v, z, cols, 2, z.0);
    widen(words, cols, z, bound);
    holders(cols, z.0, cols, z.0, 2)
}

// After one split more, of a pair with this share.
fn counted(at: Orthogonalised, share: u64, held: Option<Holders>) -> Orthogonalised
    requires { (at.splits < 512) × (at.sum ≤ at.splits * 8128) × (2 ≤ share) × (share ≤ 128) × (at.k < 392) }
    ensures { (result.splits ≡ at.splits + 1) × (result.sum ≡ at.sum + share * (share - 1) / 2) × (result.k ≡ at.k + 1) × (result.held ≡ held) }
{
    Orthogonalised {
        splits: at.splits + 1,
        sum: at.sum + share * (share - 1) / 2,
        k: at.k + 1,
        held,
    }
}

// The refusal where k is 392 and a pair is left to split.
fn no_room(at: Orthogonalised) -> Refusal
    ensures { refusal_of result ≡ refusal 9 (orthogonalised_values at) }
{
    let Orthogonalised {
        splits,
        sum,
        k,
        held,
    } = at;
    Refusal::NoRoomLeft {
        splits,
        sum,
        k,
        held,
    }
}

// Splits the pair of the largest share, then of the smallest lower bit, then of the smallest higher bit, until no share is two or more, or refuses
// where k is 392.
pub fn repeat(words: &mut [u64], n: usize, m: usize, k: usize) -> Result<Orthogonalised, Refusal>
    requires words_len { length words.old ≡ 4096 }
    requires sound { Sound (lent 8 words.old) n m k }
    ensures { Ended (lent 8 words.old) n m k (lent 8 words.new) (result_reply orthogonalised_values result) }
{
    let mut cols = [0u64; 1024];
    fill(words, &mut cols, 2, m);
    let mut bound = weights(&cols, n + k);
    let mut first = Bit(0);
    let mut cap: u64 = 128;
    let mut at = Orthogonalised {
        splits: 0,
        sum: 0,
        k,
        held: None,
    };
    while let Some(Pair { low, high, share }) = pick(
        words,
        &cols,
        n + at.k,
        &mut bound,
        first,
        cap,
    ) {
        if at.k == 392 {
            return Err(no_room(at));
        }
        let c = Check(m + at.k);
        let z = Bit(n + at.k);
        let held = turn(words, &mut cols, &mut bound, c, low, high, z);
        at = counted(at, share, held);
        first = low;
        cap = share;
    }
    Ok(at)
}
