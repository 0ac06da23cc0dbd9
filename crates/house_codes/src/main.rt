// Prints the house codes by rising name, as the generator computes them: a line for each check, its bits as 0 and 1, rising.
#![tactic(auto)]

ghost use Rattle.std.specs.Prelude.{◌<◌};
ghost use Rattle.house.specs.Names.{code};

use house::Name;
use house::rule::{generate, size};
use parity::Check;
use std::io;

// The bits of a check.
fn print_check(rt: &impl Print, name: Name, c: Check) -> io::Result<()>
    requires { c.0 < (code name).m }
{
    let n = size(name).n;
    println!(rt; "{:0n$b}", generate(name, c).reverse_bits() >> (32 - n))
}

fn print_code(rt: &impl Print, name: Name) -> io::Result<()> {
    for c in 0..size(name).m {
        print_check(rt, name, Check(c))?;
    }
    Ok(())
}

fn main(rt: HostRuntime) -> io::Result<()> {
    for name in [
        Name::Circulant,
        Name::Hamming3,
        Name::Hamming7,
        Name::Hamming15,
        Name::Hamming31,
    ] {
        print_code(&rt, name)?;
    }
    Ok(())
}
