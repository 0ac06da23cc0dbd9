// Each call's answer, or its refusal, as document 01's number and values.
#![tactic(auto)]

ghost use Rattle.std.specs.Prelude.{◌≡◌, ℕ, List};
ghost use Rattle.parity.specs.Causes.{answer, no_values, number_values, yes_values, loss_values, result_reply, numbered_reply};
ghost use Rattle.record.specs.Answers.{sizes_values};
ghost use Rattle.pairs.specs.Answers.{shared_values};
ghost use Rattle.split.specs.Answers.{split_values, taken_back_values};
ghost use Rattle.orthogonalise.specs.Answers.{orthogonalised_values};
ghost use Rattle.house.specs.Answers.{size_values};
ghost use Rattle.block.specs.Answers.{mended_values};
ghost use Rattle.packets.specs.Answers.{mended_packets_values};
ghost use Rattle.min_sum_range.specs.Answers.{ranging_outcome};
ghost use Rattle.passing.specs.Passed.{Passed, filled};

use block::Mended;
use house::Size;
use orthogonalise::Orthogonalised;
use packets::MendedPackets;
use pairs::Shared;
use parity::{Ends, Losses, Numbered, Refusal};
use passing::put_front;
use record::Sizes;
use refusals::{one_held, refused, three_held, two_held};
use split::{SplitMade, TakenBack};

// What the answer of a call carries.
pub trait Carried {
    // The values, in document 01's order.
    ghost values: { Self → List ℕ };

    // The answer as number 0 with its values.
    fn numbered(self) -> Numbered
        ensures { numbered_reply result ≡ answer (values self) };
}

impl Carried for () {
    ghost values = { no_values };

    fn numbered(self) -> Numbered {
        Numbered::Alone(0)
    }
}

impl Carried for bool {
    ghost values = { yes_values };

    fn numbered(self) -> Numbered {
        Numbered::One(0, u64::from(self))
    }
}

impl Carried for u64 {
    ghost values = { number_values };

    fn numbered(self) -> Numbered {
        Numbered::One(0, self)
    }
}

impl Carried for usize {
    ghost values = { number_values };

    fn numbered(self) -> Numbered {
        Numbered::One(0, self as u64)
    }
}

impl Carried for Losses {
    ghost values = { loss_values };

    fn numbered(self) -> Numbered {
        Numbered::Four(
            0,
            self.recovered_sent,
            self.recovered_added,
            self.left_sent,
            self.left_added,
        )
    }
}

impl Carried for Sizes {
    ghost values = { sizes_values };

    fn numbered(self) -> Numbered {
        Numbered::Three(0, self.n as u64, self.m as u64, self.k as u64)
    }
}

impl Carried for Size {
    ghost values = { size_values };

    fn numbered(self) -> Numbered {
        Numbered::Two(0, self.n as u64, self.m as u64)
    }
}

impl Carried for Shared {
    ghost values = { shared_values };

    fn numbered(self) -> Numbered {
        one_held(0, self.share, self.held)
    }
}

impl Carried for SplitMade {
    ghost values = { split_values };

    fn numbered(self) -> Numbered {
        two_held(0, self.share, self.k as u64, self.held)
    }
}

impl Carried for TakenBack {
    ghost values = { taken_back_values };

    fn numbered(self) -> Numbered {
        Numbered::Two(0, self.share, self.k as u64)
    }
}

impl Carried for Orthogonalised {
    ghost values = { orthogonalised_values };

    fn numbered(self) -> Numbered {
        three_held(0, self.splits, self.sum, self.k as u64, self.held)
    }
}

impl Carried for Mended {
    ghost values = { mended_values };

    fn numbered(self) -> Numbered {
        Numbered::Two(0, self.stage, self.recovered)
    }
}

impl Carried for MendedPackets {
    ghost values = { mended_packets_values };

    fn numbered(self) -> Numbered {
        Numbered::Five(
            0,
            self.losses.recovered_sent,
            self.losses.recovered_added,
            self.losses.left_sent,
            self.losses.left_added,
            self.odd_lanes,
        )
    }
}

// A call's answer, or its refusal, as number and values.
fn numbered<T: Carried>(outcome: Result<T, Refusal>) -> Numbered
    ensures { numbered_reply result ≡ result_reply T.values outcome }
{
    match outcome {
        Ok(carried) => carried.numbered(),
        Err(why) => refused(why),
    }
}

// Passes it on: returns the number, and puts the values at the front of the lent slice, as far as that reaches.
pub fn pass<T: Carried>(outcome: Result<T, Refusal>, values: &mut [u64]) -> u32
    ensures { Passed (result_reply T.values outcome) values.old values.new result }
{
    passing::pass(numbered(outcome), values)
}

// What the call on ranges answers; a range's ends are put at the front of the lent slice, as far as that reaches.
pub fn ranging(answer: Result<Option<Ends>, Refusal>, ends: &mut [f32]) -> Numbered
    ensures result_value { numbered_reply result ≡ (ranging_outcome answer).reply }
    ensures ends_after { ends.new ≡ filled (ranging_outcome answer).ends ends.old }
{
    match answer {
        Err(why) => refused(why),
        Ok(within) => match within {
            None => Numbered::One(0, 0),
            Some(range) => {
                put_front(ends, &[range.low, range.high]);
                Numbered::One(0, 3)
            }
        },
    }
}
