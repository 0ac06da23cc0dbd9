// Causes 22, 10, 11 and 23.
ghost use Rattle.std.specs.Prelude.{◌≡◌, ◌&&◌, eqb, position};
ghost use Rattle.std.specs.List.{zip};
ghost use Rattle.parity.specs.Causes.{result_reply, no_values};
ghost use Rattle.parity.specs.Floats.{too_large};
ghost use Rattle.parity.specs.SoftCall.{soft_reply};

use parity::Refusal;
use sets::bytes::first_above;
use soft::floats::too_large;

// The first soft float that is too large.
fn first_float(word: &[u8], floats: &[f32]) -> Option<usize>
    ensures { result ≡ position (λ p. eqb p.0 3 && too_large p.1) (zip word.now floats.now) }
{
    word.iter()
        .zip(floats)
        .position(|p| *p.0 == 3 && too_large(*p.1))
}

// Takes the rounds and the lent slices of a matrix with `bits` bits, or refuses by the first of causes 22, 10, 11 and 23 that holds.
pub fn judge(
    bits: usize,
    rounds: usize,
    word: &[u8],
    floats: &[f32],
    tags: &[u8],
    values: &[f32],
) -> Result<(), Refusal>
    ensures { result_reply no_values result ≡ soft_reply bits rounds word.now floats.now tags.now values.now }
{
    if rounds < 1 || 512 < rounds {
        return Err(Refusal::WrongRounds);
    }
    if word.len() != bits || floats.len() != bits || tags.len() != 65536 || values.len() != 65536 {
        return Err(Refusal::WrongLength);
    }
    if let Some(place) = first_above(word, 3) {
        return Err(Refusal::WrongByte { place });
    }
    match first_float(word, floats) {
        Some(place) => Err(Refusal::WrongFloat { place }),
        None => Ok(()),
    }
}
