// Packets, whose bits at one place are a lane: a plan of solving that is carried out in all lanes at once.
#![tactic(auto)]

pub mod mend;
pub mod run;
pub mod sums;
pub mod tiles;

// A step of a plan: bit `bit` is solved by check `check`, or by that row of the reduced ones.
#[derive(Clone, Copy, Debug, PartialEq, Eq)]
pub struct Step {
    pub check: u16,
    pub bit: u16,
}

// The numbers of a plan, for `bits` bits, in `used` words, and `checks` checks: after its steps by checks, the checks that are not skipped and the rows from `first` up to `end` are
// tested, and then come its steps by rows. It is carried out in tiles of `lanes` words of every packet.
#[derive(Clone, Copy, Debug, PartialEq, Eq)]
pub struct Plan {
    pub used: usize,
    pub bits: usize,
    pub checks: usize,
    pub first: usize,
    pub end: usize,
    pub lanes: usize,
}

// Where a tile stands in packets of `len` words: it has their `count` words from `from` on, in rows of `lanes` words.
#[derive(Clone, Copy, Debug, PartialEq, Eq)]
pub struct Part {
    pub len: usize,
    pub from: usize,
    pub count: usize,
    pub lanes: usize,
}
