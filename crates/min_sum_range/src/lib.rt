// The range of one check's min-sum answer, for soft values known within a range.
#![tactic(auto)]

mod combine;
mod judge;

ghost use Rattle.std.specs.Prelude.{◌≡◌};
ghost use Rattle.parity.specs.SoftRange.{min_sum_range_outcome};
ghost use Rattle.min_sum_range.specs.Answers.{ranging_outcome};

use crate::combine::range_of;
use crate::judge::{first_crossed, first_unfit};
use parity::{Ends, Refusal};

// The range of one check's answer, over all choices inside the ranges of its other bits: the two ends, or none with no other bits in the check, where the
// answer is sure 0. That the ends given are this range is the theorem `RangeGiven` (parity's specs/SoftRangePromises).
pub fn range(lows: &[f32], highs: &[f32]) -> Result<Option<Ends>, Refusal>
    ensures { ranging_outcome result ≡ min_sum_range_outcome lows.now highs.now }
{
    let n = lows.len();
    if n != highs.len() || 511 < n {
        return Err(Refusal::WrongLength);
    }
    if let Some(place) = first_unfit(lows, highs) {
        return Err(Refusal::WrongFloat { place });
    }
    if let Some(place) = first_crossed(lows, highs) {
        return Err(Refusal::LowAboveHigh { place });
    }
    if n == 0 {
        return Ok(None);
    }
    Ok(Some(range_of(lows, highs)))
}
