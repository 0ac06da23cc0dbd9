// Mending packets, on document 01's cases and on bad input. A line has the case, what the call answers (of the packets recovered and left, how many are sent and how many
// added; and how many lanes are odd), the packets that are lost afterwards as ones, the words of all packets and those of the odd lanes.
#![tactic(auto)]

use packets::MendedPackets;
use parity::Refusal;
use samples::say::{Counted, Symbols, Why};
use std::{fmt, io};

// What the call answers.
#[derive(Clone, Copy)]
struct Answer(Result<MendedPackets, Refusal>);

impl fmt::Display for Answer {
    fn fmt<W: fmt::Write>(&self, f: &mut fmt::Formatter<W>) -> fmt::Result {
        match self.0 {
            Ok(MendedPackets { losses, odd_lanes }) => {
                write!(f, "{}, odd lanes {odd_lanes}", Counted(losses))
            }
            Err(r) => write!(f, "REFUSED {}", Why(r)),
        }
    }
}

// Words, each behind a space.
#[derive(Clone, Copy)]
struct Words<'a>(&'a [u64]);

impl<'a> fmt::Display for Words<'a> {
    fn fmt<W: fmt::Write>(&self, f: &mut fmt::Formatter<W>) -> fmt::Result {
        for x in self.0 {
            write!(f, " {x}")?;
        }
        Ok(())
    }
}

fn mend_line(
    rt: &impl Print,
    head: &str,
    words: &[u64],
    n: usize,
    m: usize,
    k: usize,
    lost: &mut [u8],
    packets: &mut [u64],
    odd: &mut [u64],
) -> io::Result<()> {
    let answer = Answer(packets::mend_packets(words, n, m, k, lost, packets, odd));
    let (lost, packets, odd) = (Symbols(lost), Words(packets), Words(odd));
    println!(rt; "{head}: {answer} {lost}{packets} odd{odd}")
}

// C, which has seven packets.
fn c_line(
    rt: &impl Print,
    head: &str,
    c: &[u64],
    lost: &mut [u8],
    packets: &mut [u64],
    odd: &mut [u64],
) -> io::Result<()> {
    mend_line(rt, head, c, 7, 3, 0, lost, packets, odd)
}

// Lanes 0 to 3 of C's packets are the codewords 0000000, 0011111, 1100111 and 1111000 without their first two bits, and lane 4 has a false bit.
fn case_c(rt: &impl Print, c: &[u64]) -> io::Result<()> {
    let mut two = [1, 1, 0, 0, 0, 0, 0];
    let mut packets = [99, 255, 10, 26, 6, 6, 6];
    let mut odd = [7];
    c_line(rt, "C, two lost", c, &mut two, &mut packets, &mut odd)?;
    let mut four = [1, 1, 1, 1, 0, 0, 0];
    c_line(rt, "C, four lost", c, &mut four, &mut packets, &mut odd)?;
    let mut plan = [1, 1, 1, 0, 0, 0, 0];
    c_line(rt, "C, a plan", c, &mut plan, &mut [], &mut [])
}

// Two words to a packet; the added bit is lost too.
fn case_d(rt: &impl Print) -> io::Result<()> {
    let d = samples::cases::d();
    let mut lost = [1, 1, 0, 0, 0, 0, 0, 1];
    let mut packets = [5, 5, 5, 5, 1, 0, 1, 0, 0, 0, 0, 0, 0, 0, 9, 9];
    mend_line(rt, "D", &d, 7, 3, 1, &mut lost, &mut packets, &mut [1, 1])
}

fn wrong_lists(rt: &impl Print, c: &[u64]) -> io::Result<()> {
    let mut lost = [0, 0, 0, 0, 2, 0, 0];
    let mut packets = [1, 2, 3, 4, 5, 6, 7];
    let mut odd = [7];
    c_line(rt, "C, a wrong byte", c, &mut lost, &mut packets, &mut odd)?;
    let mut two = [7, 8];
    c_line(
        rt,
        "C, packets too short",
        c,
        &mut lost,
        &mut packets,
        &mut two,
    )
}

fn wrong_sizes(rt: &impl Print, c: &[u64]) -> io::Result<()> {
    let mut short = [0, 0, 0, 0, 2, 0];
    let mut packets = [1, 2, 3, 4, 5, 6, 7];
    let mut odd = [7];
    c_line(rt, "C, n - 1 bytes", c, &mut short, &mut packets, &mut odd)?;
    mend_line(
        rt,
        "C, too many checks",
        c,
        7,
        121,
        0,
        &mut short,
        &mut packets,
        &mut odd,
    )
}

fn main(rt: HostRuntime) -> io::Result<()> {
    let c = samples::cases::c();
    case_c(&rt, &c)?;
    case_d(&rt)?;
    wrong_lists(&rt, &c)?;
    wrong_sizes(&rt, &c)
}
