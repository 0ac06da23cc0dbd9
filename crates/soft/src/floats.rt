// Comparison and negation of 32-bit floats, and of the Boolean that says whether a sign is turned.
ghost use Rattle.std.specs.Prelude.{◌≡◌, cond, not};
ghost use Rattle.parity.specs.Floats.{plus_zero, magnitude, turned, cut, too_large};

// Zero becomes plus zero.
pub fn plus_zero(x: f32) -> f32
    ensures { result ≡ plus_zero x }
{
    if x == 0.0 {
        return 0.0;
    }
    x
}

pub fn magnitude_of(x: f32) -> f32
    ensures { result ≡ magnitude x }
{
    if x < 0.0 {
        return -x;
    }
    x
}

// The other Boolean where `flip` says so.
pub fn flipped(flip: bool, x: bool) -> bool
    ensures { result ≡ cond flip (not x) x }
{
    flip != x
}

// The sign turned, or not.
pub fn turn(odd: bool, x: f32) -> f32
    ensures { result ≡ turned odd x }
{
    if odd {
        return plus_zero(-x);
    }
    plus_zero(x)
}

// Cut to magnitude 1,048,576.
pub fn cut_off(x: f32) -> f32
    ensures { result ≡ cut x }
{
    if 1048576.0 < x {
        return 1048576.0;
    }
    if x < -1048576.0 {
        return -1048576.0;
    }
    x
}

// Whether a soft float is not finite or above 1,048,576 in magnitude.
pub fn too_large(x: f32) -> bool
    ensures { result ≡ too_large x }
{
    !(magnitude_of(x) <= 1048576.0)
}
