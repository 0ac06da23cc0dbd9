// The search for stopping sets, over the columns of the matrix: eight words for each bit, whose bit `c` says whether check `c` contains it.
#![tactic(auto)]

mod checks;
pub mod listing;
mod members;

// A search goes over the bits below `bits` and the checks of the first `used` words. The sets that it finds are written only if `write`.
#[derive(Clone, Copy)]
pub struct Search {
    pub bits: usize,
    pub used: usize,
    pub write: bool,
}
