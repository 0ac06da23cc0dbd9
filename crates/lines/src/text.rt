// Text in a buffer of bytes: each function puts its text at a place and answers the place after it.
ghost use Rattle.std.specs.Prelude.{◌≡◌, [], ◌∷◌, ◌+◌, ◌<◌, ◌≤◌, length};
ghost use Rattle.parity.specs.Mend.{decimal};
ghost use Rattle.lines.specs.Placed.{Placed};

// Puts one byte.
pub fn put_byte(out: &mut [u8], at: usize, b: u8) -> usize
    requires { at < length out.old }
    ensures { Placed out.old at (b ∷ []) out.new result }
{
    out[at] = b;
    at + 1
}

// Puts some bytes.
pub fn put_bytes(out: &mut [u8], at: usize, bytes: &[u8]) -> usize
    requires { at + length bytes.now ≤ length out.old }
    ensures { Placed out.old at bytes.now out.new result }
{
    for i in 0..bytes.len() {
        out[at + i] = bytes[i];
    }
    at + bytes.len()
}

// The character of a digit.
fn digit(x: u64) -> u8
    requires { x < 10 }
    ensures { result ≡ 48 + x }
{
    48 + x as u8
}

// Puts a number in decimal.
pub fn put_decimal(out: &mut [u8], at: usize, x: u64) -> usize
    requires { at + length (decimal x) ≤ length out.old }
    ensures { Placed out.old at (decimal x) out.new result }
{
    if x < 10 {
        return put_byte(out, at, digit(x));
    }
    let next = put_decimal(out, at, x / 10);
    put_byte(out, next, digit(x % 10))
}
