// A reply as a caller in C gets it: a number, and values in lent slices of any length.
#![tactic(auto)]

ghost use Rattle.std.specs.Prelude.{◌≡◌};
ghost use Rattle.parity.specs.Causes.{numbered_reply};
ghost use Rattle.passing.specs.Passed.{Passed, filled};

use parity::Numbered;

// Puts values at the front, as far as the slice reaches. Where all of them fit, the number copied is the length of `front`, which the compiler knows at each call: it needs no `memcpy`.
pub fn put_front<T: Copy>(values: &mut [T], front: &[T])
    ensures { values.new ≡ filled front.now values.old }
{
    if front.len() <= values.len() {
        values[..front.len()].copy_from_slice(front);
    } else {
        values.copy_from_slice(&front[..values.len()]);
    }
}

// Passes a reply: returns its number, and puts its values at the front of the lent slice, as far as that reaches.
pub fn pass(reply: Numbered, values: &mut [u64]) -> u32
    ensures { Passed (numbered_reply reply) values.old values.new result }
{
    match reply {
        Numbered::Alone(number) => number,
        Numbered::One(number, first) => {
            put_front(values, &[first]);
            number
        }
        Numbered::Two(number, first, second) => {
            put_front(values, &[first, second]);
            number
        }
        Numbered::Three(number, first, second, third) => {
            put_front(values, &[first, second, third]);
            number
        }
        Numbered::Four(number, first, second, third, fourth) => {
            put_front(values, &[first, second, third, fourth]);
            number
        }
        Numbered::Five(number, first, second, third, fourth, fifth) => {
            put_front(values, &[first, second, third, fourth, fifth]);
            number
        }
    }
}
