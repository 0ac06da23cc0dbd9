// A split of two bits, and taking it back.
#![tactic(auto)]

ghost use Rattle.std.specs.Prelude.{◌≡◌};
ghost use Rattle.parity.specs.Matrix.{cause};
ghost use Rattle.parity.specs.Causes.{result_reply};
ghost use Rattle.parity.specs.Calls.{split_outcome, take_back_outcome};
ghost use Rattle.split.specs.Answers.{split_values, taken_back_values};

use columns::column;
use exchange::back::back_pair;
use exchange::merge::{split_columns, split_pair};
use matrix::accept;
use matrix::rule::rule_a;
use pairs::{Shared, is_pair, share_in};
use parity::{Bit, Check, Holders, Refusal};
use rows::ones::next_one;

// What a split answers: the share of the two bits, the new k, and the lowest and the highest check that contained both.
#[derive(Clone, Copy, Debug, PartialEq, Eq)]
pub struct SplitMade {
    pub share: u64,
    pub k: usize,
    pub held: Option<Holders>,
}

// What taking back answers: the number s of other checks that contained the newest added bit, and the new k.
#[derive(Clone, Copy, Debug, PartialEq, Eq)]
pub struct TakenBack {
    pub share: u64,
    pub k: usize,
}

// The split of an accepted matrix, behind causes 7, 8 and 9.
fn split_accepted(
    words: &mut [u64],
    n: usize,
    m: usize,
    k: usize,
    u: Bit,
    v: Bit,
) -> Result<SplitMade, Refusal>
    requires { cause words.old n m k ≡ 0 }
    ensures result_value { result_reply split_values result ≡ (split_outcome words.old n m k u.0 v.0).reply }
    ensures words_after { words.new ≡ (split_outcome words.old n m k u.0 v.0).after }
{
    let bits = n + k;
    let checks = m + k;
    if !is_pair(bits, u, v) {
        return Err(Refusal::NotAPair);
    }
    let mut both = column(words, checks, u);
    let other = column(words, checks, v);
    let Shared { share, held } = share_in(&both, &other);
    if share < 2 {
        return Err(Refusal::ShareBelowTwo { share });
    }
    if k == 392 {
        return Err(Refusal::NoRoomToSplit);
    }
    split_columns(words, Check(checks), u, v, Bit(bits), &mut both, &other);
    let next = k + 1;
    Ok(SplitMade {
        share,
        k: next,
        held,
    })
}

// The split of `u` and `v`: in every check that contains both, both are removed and the new bit n + k is put in; then check m + k is added,
// containing `u`, `v` and the new bit. Refused by causes 1 to 4, 7, 8 and 9.
pub fn split(
    words: &mut [u64],
    n: usize,
    m: usize,
    k: usize,
    u: Bit,
    v: Bit,
) -> Result<SplitMade, Refusal>
    ensures result_value { result_reply split_values result ≡ (split_outcome words.old n m k u.0 v.0).reply }
    ensures words_after { words.new ≡ (split_outcome words.old n m k u.0 v.0).after }
{
    accept(words, n, m, k)?;
    split_accepted(words, n, m, k, u, v)
}

// Taking back on an accepted matrix, behind causes 15 and 16. Where rule A would break, the split is made again: that gives the words as they were.
fn back_accepted(words: &mut [u64], n: usize, m: usize, k: usize) -> Result<TakenBack, Refusal>
    requires { cause words.old n m k ≡ 0 }
    ensures result_value { result_reply taken_back_values result ≡ (take_back_outcome words.old n m k).reply }
    ensures words_after { words.new ≡ (take_back_outcome words.old n m k).after }
{
    if k == 0 {
        return Err(Refusal::NothingToTakeBack);
    }
    let next = k - 1;
    let z = n + next;
    let c = m + next;
    let u = next_one(words, Check(c), 0);
    let v = next_one(words, Check(c), u + 1);
    let share = back_pair(words, m, Check(c), Bit(u), Bit(v), Bit(z));
    if rule_a(words, n, m, next) {
        return Ok(TakenBack { share, k: next });
    }
    split_pair(words, m, Check(c), Bit(u), Bit(v), Bit(z));
    Err(Refusal::CannotTakeBack)
}

// Takes back the newest added bit n + k - 1: it and its check are removed, and in every other check that contains it the two lower bits of
// its own check are put in its place. Refused by causes 1 to 4, 15 and 16.
pub fn take_back(words: &mut [u64], n: usize, m: usize, k: usize) -> Result<TakenBack, Refusal>
    ensures result_value { result_reply taken_back_values result ≡ (take_back_outcome words.old n m k).reply }
    ensures words_after { words.new ≡ (take_back_outcome words.old n m k).after }
{
    accept(words, n, m, k)?;
    back_accepted(words, n, m, k)
}
