// What is read of 64 numbers in planes: the largest, and bounds that take them in.
ghost use Rattle.std.specs.Prelude.{◌≡◌, ◌+◌, ◌*◌, ◌≤◌, ◌<◌, length};
ghost use Rattle.parity.specs.Finite.{one};
ghost use Rattle.parity.specs.Matrix.{bit_of};
ghost use Rattle.columns.specs.Planes.{number};
ghost use Rattle.choice.specs.Numbers.{high, Candidates, Best, Several, Lifted};

use columns::planes::Planes;

// The places of the largest number, and that number.
#[derive(Clone, Copy)]
pub struct Top {
    pub left: u64,
    pub value: u64,
}

// With one plane more, the next lower: those places that have a one there, if there are any.
fn narrow(top: Top, plane: u64) -> Top
    requires { top.value < 64 }
    ensures { Candidates top.left top.value plane result.left result.value }
{
    let some = top.left & plane;
    if some != 0 {
        return Top {
            left: some,
            value: top.value * 2 + 1,
        };
    }
    Top {
        left: top.left,
        value: top.value * 2,
    }
}

// The largest number at the ones of `mask`, and the places that have it.
pub fn best(p: Planes, mask: u64) -> Top
    ensures { Best p mask result.left result.value }
{
    let none = Top {
        left: mask,
        value: 0,
    };
    let t6 = narrow(none, p.p6);
    let t5 = narrow(t6, p.p5);
    let t4 = narrow(t5, p.p4);
    let t3 = narrow(t4, p.p3);
    let t2 = narrow(t3, p.p2);
    let t1 = narrow(t2, p.p1);
    narrow(t1, p.p0)
}

// A number with one digit more, the next lower: bit `t` of a word.
fn with_digit(above: u64, x: u64, t: usize) -> u64
    requires { (above < 64) × (t < 64) }
    ensures { (result ≡ one (bit_of x t) + 2 * above) × (result ≤ 1 + 2 * above) }
{
    let bit = x & (1 << t);
    if bit == 0 {
        return 2 * above;
    }
    1 + 2 * above
}

// The upper three digits of the number at `t`.
fn upper(p: Planes, t: usize) -> u64
    requires { t < 64 }
    ensures { (result ≡ high p t) × (result ≤ 7) }
{
    if (p.p4 | p.p5 | p.p6) == 0 {
        return 0;
    }
    let n6 = with_digit(0, p.p6, t);
    let n5 = with_digit(n6, p.p5, t);
    with_digit(n5, p.p4, t)
}

// The number at `t`.
fn number_at(p: Planes, t: usize) -> u64
    requires { t < 64 }
    ensures { result ≡ number p t }
{
    let n4 = upper(p, t);
    let n3 = with_digit(n4, p.p3, t);
    let n2 = with_digit(n3, p.p2, t);
    let n1 = with_digit(n2, p.p1, t);
    with_digit(n1, p.p0, t)
}

// The places of the numbers that are two or more.
fn several(p: Planes) -> u64
    ensures { Several p result }
{
    p.p1 | p.p2 | p.p3 | p.p4 | p.p5 | p.p6
}

// The bounds of the bits of word `i` take in the numbers that are two or more.
pub fn lift(bound: &mut [u64], p: Planes, i: usize)
    requires { (length bound.old ≡ 512) × (i < 8) }
    ensures { Lifted p i bound.old bound.new 0 }
{
    let mut rest = several(p);
    while rest != 0 {
        let t = rest.trailing_zeros() as usize;
        let x = i * 64 + t;
        bound[x] = bound[x].max(number_at(p, t));
        rest &= rest - 1;
    }
}
