// Ranges, combined pairwise across a check.
ghost use Rattle.std.specs.Prelude.{◌≡◌, ◌-◌, ◌<◌, length};
ghost use Rattle.parity.specs.Floats.{lesser};
ghost use Rattle.parity.specs.SoftRange.{sends_for_two, greater, combined, range_to};

use parity::Ends;
use soft::floats::{flipped, magnitude_of, plus_zero, turn};

fn lesser_of(a: f32, x: f32) -> f32
    ensures { result ≡ lesser a x }
{
    if x < a {
        return x;
    }
    a
}

fn greater_of(a: f32, x: f32) -> f32
    ensures { result ≡ greater a x }
{
    if a < x {
        return x;
    }
    a
}

// What a check sends for two soft values.
fn pair(x: f32, y: f32) -> f32
    ensures { result ≡ sends_for_two x y }
{
    let odd = flipped(x < 0.0, y < 0.0);
    turn(odd, lesser_of(magnitude_of(x), magnitude_of(y)))
}

// Two ranges combined: the least and the greatest answer at their ends.
fn combine_ends(a: Ends, b: Ends) -> Ends
    ensures { result ≡ combined a b }
{
    let p = pair(a.low, b.low);
    let q = pair(a.low, b.high);
    let r = pair(a.high, b.low);
    let s = pair(a.high, b.high);
    let low = lesser_of(lesser_of(p, q), lesser_of(r, s));
    let high = greater_of(greater_of(p, q), greater_of(r, s));
    Ends { low, high }
}

// The ranges of all values, combined one after the other.
pub fn range_of(lows: &[f32], highs: &[f32]) -> Ends
    requires { (length lows.now ≡ length highs.now) × (0 < length lows.now) }
    ensures { result ≡ range_to lows.now highs.now (length lows.now - 1) }
{
    let n = lows.len();
    let mut e = Ends {
        low: plus_zero(lows[0]),
        high: plus_zero(highs[0]),
    };
    for i in 1..n {
        let next = Ends {
            low: lows[i],
            high: highs[i],
        };
        e = combine_ends(e, next);
    }
    e
}
