// Causes 23 and 24: the lowest place at which they hold.
ghost use Rattle.std.specs.Prelude.{◌≡◌, position};
ghost use Rattle.std.specs.List.{zip};
ghost use Rattle.std.specs.Option.{option_or};
ghost use Rattle.std.specs.Float.Ieee.{lt};
ghost use Rattle.parity.specs.Floats.{too_large};

use soft::floats::too_large;

// The first place of a float that is too large.
fn first_large(xs: &[f32]) -> Option<usize>
    ensures { result ≡ position (λ x. too_large x) xs.now }
{
    xs.iter().position(|x| too_large(*x))
}

// The first place of a low that is too large, else that of a high.
pub fn first_unfit(lows: &[f32], highs: &[f32]) -> Option<usize>
    ensures { result ≡ option_or (position (λ x. too_large x) lows.now) (position (λ x. too_large x) highs.now) }
{
    first_large(lows).or_else(|| first_large(highs))
}

// The first place of a low above its high.
pub fn first_crossed(lows: &[f32], highs: &[f32]) -> Option<usize>
    ensures { result ≡ position (λ p. lt p.1 p.0) (zip lows.now highs.now) }
{
    lows.iter().zip(highs).position(|p| *p.1 < *p.0)
}
