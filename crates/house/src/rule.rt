// The house codes from their rules: sizes, and a generator of the words of every table.
ghost use Rattle.std.specs.Prelude.{◌≡◌, ◌+◌, ◌*◌, ◌^◌, ◌<◌};
ghost use Rattle.parity.specs.Finite.{one};
ghost use Rattle.parity.specs.House.{circulant, hamming, table_word};
ghost use Rattle.house.specs.Names.{code};

use crate::{Name, Size};
use parity::{Bit, Check};

// The list of e: check c of the circulant contains (c+e) mod 23.
const TURNS: [usize; 8] = [0, 1, 2, 3, 4, 7, 10, 12];

// The size of the code of a name.
pub fn size(name: Name) -> Size
    ensures { (result.n ≡ (code name).n) × (result.m ≡ (code name).m) }
{
    match name {
        Name::Circulant => Size { n: 23, m: 23 },
        Name::Hamming3 => Size { n: 3, m: 2 },
        Name::Hamming7 => Size { n: 7, m: 3 },
        Name::Hamming15 => Size { n: 15, m: 4 },
        Name::Hamming31 => Size { n: 31, m: 5 },
    }
}

// Whether check `c` of the circulant contains bit `b`.
fn in_circulant(c: usize, b: usize) -> bool
    requires { c < 23 }
    ensures { result ≡ circulant c b }
{
    for e in TURNS {
        if (c + e) % 23 == b {
            return true;
        }
    }
    false
}

// Whether a Hamming check `c` contains bit `b`: whether bit `c` of `b + 1` is one.
fn in_hamming(c: usize, b: usize) -> bool
    requires { (c < 64) × (b + 1 < 2 ^ 64) }
    ensures { result ≡ hamming c b }
{
    (b + 1) & (1 << c) != 0
}

// Whether check `c` of the code of a name contains bit `b`.
fn contains(name: Name, c: Check, b: Bit) -> bool
    requires { (c.0 < (code name).m) × (b.0 < (code name).n) }
    ensures { result ≡ (code name).matrix c.0 b.0 }
{
    match name {
        Name::Circulant => in_circulant(c.0, b.0),
        _ => in_hamming(c.0, b.0),
    }
}

// The value of bit `b` of a word, if it is contained.
fn value(contained: bool, b: usize) -> u32
    requires { b < 32 }
    ensures { result ≡ one contained * 2 ^ b }
{
    if contained { 1 << b } else { 0 }
}

// The generator: word `c` of the table of a name, computed from the rule.
pub fn generate(name: Name, c: Check) -> u32
    requires { c.0 < (code name).m }
    ensures { result ≡ table_word 32 (code name).matrix c.0 }
{
    let mut x: u32 = 0;
    for b in 0..size(name).n {
        x += value(contains(name, c, Bit(b)), b);
    }
    x
}
