// Each house code, copied over words that are all ones: its n, m, rank and cycle count, and the splits, sum and k of its orthogonalising. Then
// names that no code has, and slices of another length than 4,096, which are left as they were.
#![tactic(auto)]

ghost use Rattle.std.specs.Prelude.{◌≤◌};

use house::Size;
use orthogonalise::Orthogonalised;
use parity::Refusal;
use samples::say::Why;
use samples::words::{are_ones, ones};
use std::io;

// What a call answers that counts something.
fn show_number(rt: &impl Print, what: &str, answer: Result<u64, Refusal>) -> io::Result<()> {
    match answer {
        Ok(number) => print!(rt; ", {what} {number}"),
        Err(r) => print!(rt; ", refused {}", Why(r)),
    }
}

// Orthogonalises, and answers k.
fn show_orthogonalise(rt: &impl Print, words: &mut [u64], n: usize, m: usize) -> io::Result<usize> {
    match orthogonalise::orthogonalise(words, n, m, 0) {
        Ok(Orthogonalised { splits, sum, k, .. }) => {
            print!(rt; ", splits {splits}, sum {sum}, k {k}")?;
            Ok(k)
        }
        Err(r) => {
            print!(rt; ", refused {}", Why(r))?;
            Ok(0)
        }
    }
}

fn show_matrix(rt: &impl Print, words: &mut [u64], n: usize, m: usize) -> io::Result<()> {
    print!(rt; "n {n}, m {m}")?;
    show_number(rt, "rank", rank::rank(words, n, m, 0))?;
    show_number(rt, "count", cycles::count(words, n, m, 0))?;
    let k = show_orthogonalise(rt, words, n, m)?;
    show_number(rt, "count", cycles::count(words, n, m, k))
}

// Copies the code of a name, and shows it or why it was refused.
fn show(rt: &impl Print, name: usize, words: &mut [u64]) -> io::Result<()> {
    print!(rt; "name {name}, words {}: ", words.len())?;
    match house::copy(name, words) {
        Ok(Size { n, m }) => show_matrix(rt, words, n, m)?,
        Err(r) => print!(rt; "refused {}", Why(r))?,
    }
    if are_ones(words) {
        print!(rt; ", words as they were")?;
    }
    println!(rt)
}

// The name, with so many words that are all ones.
fn show_with(rt: &impl Print, name: usize, count: usize) -> io::Result<()>
    requires { count ≤ 4097 }
{
    let mut words = ones();
    show(rt, name, &mut words[..count])
}

fn show_lengths(rt: &impl Print, name: usize) -> io::Result<()> {
    show_with(rt, name, 0)?;
    show_with(rt, name, 4095)?;
    show_with(rt, name, 4097)
}

fn main(rt: HostRuntime) -> io::Result<()> {
    for name in [0, 1, 2, 3, 4, 5, 255, 256, 4294967296, 18446744073709551615] {
        show_with(&rt, name, 4096)?;
    }
    for name in [0, 4, 5] {
        show_lengths(&rt, name)?;
    }
    Ok(())
}
