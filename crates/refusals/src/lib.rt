// The table of refusals: the number of each, and the values that it carries.
#![tactic(auto)]

ghost use Rattle.std.specs.Prelude.{◌≡◌, ◌∷◌};
ghost use Rattle.parity.specs.Causes.{refusal, held_values, refusal_of, numbered_reply};

use parity::{Holders, Numbered, Refusal};

// A number with one value and the checks that hold a pair.
pub fn one_held(number: u32, first: u64, held: Option<Holders>) -> Numbered
    ensures { numbered_reply result ≡ refusal number (first ∷ held_values held) }
{
    match held {
        None => Numbered::One(number, first),
        Some(Holders { low, high }) => Numbered::Three(number, first, low.0 as u64, high.0 as u64),
    }
}

// A number with two values and the checks that hold a pair.
pub fn two_held(number: u32, first: u64, second: u64, held: Option<Holders>) -> Numbered
    ensures { numbered_reply result ≡ refusal number (first ∷ second ∷ held_values held) }
{
    match held {
        None => Numbered::Two(number, first, second),
        Some(Holders { low, high }) => Numbered::Four(
            number,
            first,
            second,
            low.0 as u64,
            high.0 as u64,
        ),
    }
}

// A number with three values and the checks that hold a pair.
pub fn three_held(
    number: u32,
    first: u64,
    second: u64,
    third: u64,
    held: Option<Holders>,
) -> Numbered
    ensures { numbered_reply result ≡ refusal number (first ∷ second ∷ third ∷ held_values held) }
{
    match held {
        None => Numbered::Three(number, first, second, third),
        Some(Holders { low, high }) => {
            Numbered::Five(number, first, second, third, low.0 as u64, high.0 as u64)
        }
    }
}

// The table: the number of each refusal in the papers, and the values that it carries.
pub fn refused(why: Refusal) -> Numbered
    ensures { numbered_reply result ≡ refusal_of why }
{
    match why {
        Refusal::MatrixLength => Numbered::Alone(1),
        Refusal::OutOfRange => Numbered::Alone(2),
        Refusal::OneOutside => Numbered::Alone(3),
        Refusal::RuleABroken => Numbered::Alone(4),
        Refusal::FaultyWord { place } => Numbered::One(5, place as u64),
        Refusal::RecordTooShort { needed } => Numbered::One(6, needed as u64),
        Refusal::NotAPair => Numbered::Alone(7),
        Refusal::ShareBelowTwo { share } => Numbered::One(8, share),
        Refusal::NoRoomToSplit => Numbered::Alone(9),
        Refusal::NoRoomLeft {
            splits,
            sum,
            k,
            held,
        } => three_held(9, splits, sum, k as u64, held),
        Refusal::WrongLength => Numbered::Alone(10),
        Refusal::WrongByte { place } => Numbered::One(11, place as u64),
        Refusal::Contradiction => Numbered::Alone(12),
        Refusal::AddedBits => Numbered::Alone(13),
        Refusal::ProgramInput => Numbered::Alone(14),
        Refusal::NothingToTakeBack => Numbered::Alone(15),
        Refusal::CannotTakeBack => Numbered::Alone(16),
        Refusal::UnknownName => Numbered::Alone(17),
        Refusal::WrongSize => Numbered::Alone(18),
        Refusal::SetsTooShort { needed } => Numbered::One(19, needed as u64),
        Refusal::DifferentLengths => Numbered::Alone(20),
        Refusal::TooManyChecks => Numbered::Alone(21),
        Refusal::WrongRounds => Numbered::Alone(22),
        Refusal::WrongFloat { place } => Numbered::One(23, place as u64),
        Refusal::LowAboveHigh { place } => Numbered::One(24, place as u64),
    }
}

// The number of a refusal.
pub fn number(r: Refusal) -> u64
    ensures { result ≡ (refusal_of r).number }
{
    let told = refused(r);
    match told {
        Numbered::Alone(c) => c as u64,
        Numbered::One(c, _) => c as u64,
        Numbered::Two(c, _, _) => c as u64,
        Numbered::Three(c, _, _, _) => c as u64,
        Numbered::Four(c, _, _, _, _) => c as u64,
        Numbered::Five(c, _, _, _, _, _) => c as u64,
    }
}
