// The bytes of a word or a set: the lowest above the values named, and copying.
ghost use Rattle.std.specs.Prelude.{◌≡◌, ◌++◌, ◌-◌, ◌≤◌, ltb, length, drop, replicate, position};
ghost use Rattle.parity.specs.Calls.{wrong_byte};
ghost use Rattle.sets.specs.Above.{first_wrong};

// Whether some byte is above `top`. Each is looked at, so that the compiler takes many at once.
fn any_above(bytes: &[u8], top: u8) -> bool
    ensures { result ≡ wrong_byte top bytes.now }
{
    let mut over = false;
    for b in bytes {
        over |= top < *b;
    }
    over
}

// The lowest place whose byte is above `top`, by a search from the front.
fn lowest_above(bytes: &[u8], top: u8) -> Option<usize>
    ensures { result ≡ position (λ b. ltb top b) bytes.now }
{
    bytes.iter().position(|b| top < *b)
}

// The same: it is looked for only where there is one.
pub fn first_above(bytes: &[u8], top: u8) -> Option<usize>
    ensures { result ≡ first_wrong top bytes.now }
{
    if any_above(bytes, top) {
        return lowest_above(bytes, top);
    }
    None
}

// A word of that length: the bytes, and erased bits behind them.
pub fn erased_behind(bytes: &[u8]) -> [u8; 512]
    requires { length bytes.now ≤ 512 }
    ensures { (length result ≡ 512) × (result ≡ bytes.now ++ replicate (512 - length bytes.now) 2) }
{
    let mut word = [2u8; 512];
    word[..bytes.len()].copy_from_slice(bytes);
    word
}
