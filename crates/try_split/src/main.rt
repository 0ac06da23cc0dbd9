// Sharing, counting, splitting, taking back and orthogonalising on the bench's matrices A, C, E and L, and on a dense matrix that is refused 9;
// splits at k = 391 and 392; matrices that no splits made, taken back; pairs held by checks at the edges of words.
#![tactic(auto)]

ghost use Rattle.std.specs.Prelude.{◌≡◌, ◌≤◌, length};

use orthogonalise::Orthogonalised;
use pairs::Shared;
use parity::{Bit, Check, Holders, Refusal};
use samples::say::Why;
use split::{SplitMade, TakenBack};
use std::{fmt, io};

// The lowest and the highest check that hold a pair.
#[derive(Clone, Copy)]
struct Held(Option<Holders>);

impl fmt::Display for Held {
    fn fmt<W: fmt::Write>(&self, f: &mut fmt::Formatter<W>) -> fmt::Result {
        match self.0 {
            None => write!(f, ", held by none"),
            Some(Holders { low, high }) => write!(f, ", held by {} to {}", low.0, high.0),
        }
    }
}

fn show_count(rt: &impl Print, words: &[u64], n: usize, m: usize, k: usize) -> io::Result<()> {
    match cycles::count(words, n, m, k) {
        Ok(count) => println!(rt; "count {count}"),
        Err(why) => println!(rt; "refused {}", Why(why)),
    }
}

fn show_share(
    rt: &impl Print,
    words: &[u64],
    n: usize,
    m: usize,
    k: usize,
    u: usize,
    v: usize,
) -> io::Result<()> {
    match cycles::share(words, n, m, k, Bit(u), Bit(v)) {
        Ok(Shared { share, held }) => println!(rt; "share {share}{}", Held(held)),
        Err(why) => println!(rt; "refused {}", Why(why)),
    }
}

fn show_split(
    rt: &impl Print,
    words: &mut [u64],
    n: usize,
    m: usize,
    k: usize,
    u: usize,
    v: usize,
) -> io::Result<()> {
    match split::split(words, n, m, k, Bit(u), Bit(v)) {
        Ok(SplitMade { share, k, held }) => println!(rt;
            "split, share {share}, k {k}{}",
            Held(held)
        ),
        Err(why) => println!(rt; "refused {}", Why(why)),
    }
}

fn show_take_back(
    rt: &impl Print,
    words: &mut [u64],
    n: usize,
    m: usize,
    k: usize,
) -> io::Result<()> {
    match split::take_back(words, n, m, k) {
        Ok(TakenBack { share, k }) => println!(rt; "taken back, s {share}, k {k}"),
        Err(why) => println!(rt; "refused {}", Why(why)),
    }
}

// What orthogonalising came to, or had come to where it was refused 9, and its k.
fn show_result(rt: &impl Print, came_to: Orthogonalised) -> io::Result<usize> {
    let Orthogonalised {
        splits,
        sum,
        k,
        held,
    } = came_to;
    println!(rt; "splits {splits}, sum {sum}, k {k}{}", Held(held))?;
    Ok(k)
}

// Orthogonalises, and answers the k that it came to.
fn show_orthogonalise(
    rt: &impl Print,
    words: &mut [u64],
    n: usize,
    m: usize,
    k: usize,
) -> io::Result<usize> {
    match orthogonalise::orthogonalise(words, n, m, k) {
        Ok(came_to) => show_result(rt, came_to),
        Err(why) => {
            println!(rt; "refused {}", Why(why))?;
            show_where_full(rt, why)
        }
    }
}

// What a refusal 9 carries, and its k; 0 for another refusal.
fn show_where_full(rt: &impl Print, refusal: Refusal) -> io::Result<usize> {
    match refusal {
        Refusal::NoRoomLeft {
            splits,
            sum,
            k,
            held,
        } => show_result(
            rt,
            Orthogonalised {
                splits,
                sum,
                k,
                held,
            },
        ),
        _ => Ok(0),
    }
}

// The first words of checks 0 to 3.
fn show_checks(rt: &impl Print, words: &[u64; 4096]) -> io::Result<()> {
    println!(rt;
        "checks {} {} {} {}",
        words[0], words[8], words[16], words[24]
    )
}

fn case_a(rt: &impl Print) -> io::Result<()> {
    println!(rt; "A")?;
    let mut words = samples::cases::a();
    show_count(rt, &words, 7, 3, 0)?;
    show_share(rt, &words, 7, 3, 0, 6, 3)?;
    let k = show_orthogonalise(rt, &mut words, 7, 3, 0)?;
    show_checks(rt, &words)?;
    show_count(rt, &words, 7, 3, k)
}

fn case_c(rt: &impl Print) -> io::Result<()> {
    println!(rt; "C")?;
    let mut words = samples::cases::c();
    show_count(rt, &words, 7, 3, 0)?;
    show_split(rt, &mut words, 7, 3, 0, 0, 3)?;
    show_split(rt, &mut words, 7, 3, 0, 4, 4)?;
    show_split(rt, &mut words, 7, 3, 0, 1, 0)?;
    show_checks(rt, &words)
}

fn case_e(rt: &impl Print) -> io::Result<()> {
    println!(rt; "E")?;
    let mut words = samples::cases::e();
    show_count(rt, &words, 3, 2, 0)?;
    let k = show_orthogonalise(rt, &mut words, 3, 2, 0)?;
    show_checks(rt, &words)?;
    show_count(rt, &words, 3, 2, k)
}

// E split by hand, 0 with 1 and then 2 with the new bit, looked at, and taken back to E.
fn case_e_by_hand(rt: &impl Print) -> io::Result<()> {
    println!(rt; "E by hand")?;
    let mut words = samples::cases::e();
    show_split(rt, &mut words, 3, 2, 0, 0, 1)?;
    show_split(rt, &mut words, 3, 2, 1, 3, 2)?;
    show_checks(rt, &words)?;
    show_count(rt, &words, 3, 2, 2)?;
    show_take_back(rt, &mut words, 3, 2, 2)?;
    show_checks(rt, &words)?;
    show_take_back(rt, &mut words, 3, 2, 1)?;
    show_checks(rt, &words)?;
    show_take_back(rt, &mut words, 3, 2, 0)
}

// Accepted matrices that no splits made: {1,4} {0,1,3} {0,2,4} with m = 1 would break rule A; {0,1,2} with m = 0 would not.
fn case_not_split(rt: &impl Print) -> io::Result<()> {
    println!(rt; "not split")?;
    let mut words = [0u64; 4096];
    words[0] = 0b10010;
    words[8] = 0b1011;
    words[16] = 0b10101;
    show_take_back(rt, &mut words, 3, 1, 2)?;
    show_checks(rt, &words)?;
    let mut words = [0u64; 4096];
    words[0] = 0b111;
    show_take_back(rt, &mut words, 2, 0, 1)?;
    show_checks(rt, &words)
}

// The ones of the first `m` checks.
fn ones(words: &[u64], m: usize) -> u64
    requires { (length words.now ≡ 4096) × (m ≤ 512) }
{
    let mut n: u64 = 0;
    for c in 0..m {
        n = n % 65536 + rows::ones::weight(words, Check(c)) as u64 % 65536;
    }
    n
}

// Takes back the `k` splits of L.
fn take_all_back(rt: &impl Print, words: &mut [u64], k: usize) -> io::Result<()> {
    for i in 0..k {
        show_take_back(rt, words, 23, 23, k - i)?;
    }
    Ok(())
}

fn case_l(rt: &impl Print) -> io::Result<()> {
    println!(rt; "L")?;
    let mut words = samples::cases::l();
    println!(rt; "ones {}", ones(&words, 23))?;
    show_count(rt, &words, 23, 23, 0)?;
    let before = words;
    let k = show_orthogonalise(rt, &mut words, 23, 23, 0)?;
    show_count(rt, &words, 23, 23, k)?;
    take_all_back(rt, &mut words, k)?;
    show_whether_same(rt, &words, &before)
}

// The next of a run of pseudo-random words.
fn next(x: u64) -> u64 {
    let y = x ^ (x << 13);
    let z = y ^ (y >> 7);
    z ^ (z << 17)
}

// 120 checks of 120 bits, about half of them ones.
fn dense(words: &mut [u64])
    requires { length words.old ≡ 4096 }
    ensures { length words.new ≡ 4096 }
{
    let mut x: u64 = 88172645463325252;
    for c in 0..120 {
        x = next(x);
        words[c * 8] = x;
        x = next(x);
        words[c * 8 + 1] = x / 256;
    }
}

fn case_dense(rt: &impl Print) -> io::Result<()> {
    println!(rt; "dense")?;
    let mut words = [0u64; 4096];
    dense(&mut words);
    show_count(rt, &words, 120, 120, 0)?;
    let k = show_orthogonalise(rt, &mut words, 120, 120, 0)?;
    show_count(rt, &words, 120, 120, k)
}

// Checks 0 and 119 contain bits 64 to 119; added check 120 + j contains bit 120 + j and a pair of lower ones that no other check contains.
fn extended(words: &mut [u64])
    requires { length words.old ≡ 4096 }
    ensures { length words.new ≡ 4096 }
{
    words[1] = 0xffffffffffffff;
    words[953] = 0xffffffffffffff;
    for j in 0..391 {
        let at = (120 + j) * 8;
        words[at] = 1 << (j % 20) | 1 << (20 + j / 20);
        words[at + (120 + j) / 64] = 1 << ((120 + j) % 64);
    }
}

fn show_whether_same(rt: &impl Print, words: &[u64; 4096], before: &[u64; 4096]) -> io::Result<()> {
    if words == before {
        println!(rt; "words as they were")
    } else {
        println!(rt; "words changed")
    }
}

// The share, the split, and whether the words are afterwards as they were.
fn show_split_and_words(
    rt: &impl Print,
    words: &mut [u64; 4096],
    k: usize,
    u: usize,
    v: usize,
) -> io::Result<()> {
    let before = *words;
    show_share(rt, words, 120, 120, k, u, v)?;
    show_split(rt, words, 120, 120, k, u, v)?;
    show_whether_same(rt, words, &before)
}

// Pairs held by check 63, by 64, by both, by checks 0 and 119, and by none.
fn case_edges(rt: &impl Print) -> io::Result<()> {
    println!(rt; "edges of words")?;
    let mut words = [0u64; 4096];
    words[0] = 0b11000000;
    words[504] = 0b1111;
    words[512] = 0b110011;
    words[952] = 0b11000000;
    show_share(rt, &words, 8, 120, 0, 0, 1)?;
    show_share(rt, &words, 8, 120, 0, 2, 3)?;
    show_share(rt, &words, 8, 120, 0, 4, 5)?;
    show_share(rt, &words, 8, 120, 0, 7, 6)?;
    show_share(rt, &words, 8, 120, 0, 2, 4)?;
    show_split(rt, &mut words, 8, 120, 0, 2, 4)?;
    show_split(rt, &mut words, 8, 120, 0, 2, 3)?;
    let k = show_orthogonalise(rt, &mut words, 8, 120, 0)?;
    show_share(rt, &words, 8, 120, k, 0, 1)?;
    show_share(rt, &words, 8, 120, k, 6, 9)?;
    let _ = show_orthogonalise(rt, &mut words, 8, 120, k)?;
    Ok(())
}

// Pairs that an added check alone holds: 127, 128 and the last.
fn show_added(rt: &impl Print, words: &[u64]) -> io::Result<()> {
    show_share(rt, words, 120, 120, 391, 7, 20)?;
    show_share(rt, words, 120, 120, 391, 20, 8)?;
    show_share(rt, words, 120, 120, 391, 10, 510)?;
    show_share(rt, words, 120, 120, 391, 7, 8)
}

// Orthogonalises where k is at its end or close to it.
fn show_refused_9(rt: &impl Print, words: &mut [u64; 4096], k: usize) -> io::Result<()> {
    let _ = show_orthogonalise(rt, words, 120, 120, k)?;
    Ok(())
}

// At k = 391 a split is made; at 392 it is refused. Orthogonalising is refused 9 after one split, and at once.
fn case_most(rt: &impl Print) -> io::Result<()> {
    println!(rt; "k to 392")?;
    let mut words = [0u64; 4096];
    extended(&mut words);
    show_count(rt, &words, 120, 120, 391)?;
    show_added(rt, &words)?;
    let mut copy = words;
    show_refused_9(rt, &mut copy, 391)?;
    show_split_and_words(rt, &mut words, 391, 64, 65)?;
    show_split_and_words(rt, &mut words, 392, 66, 67)?;
    show_refused_9(rt, &mut words, 392)
}

fn main(rt: HostRuntime) -> io::Result<()> {
    case_a(&rt)?;
    case_c(&rt)?;
    case_e(&rt)?;
    case_e_by_hand(&rt)?;
    case_not_split(&rt)?;
    case_l(&rt)?;
    case_dense(&rt)?;
    case_edges(&rt)?;
    case_most(&rt)
}
