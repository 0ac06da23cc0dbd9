// A split, and taking it back, on the words of a matrix.
#![tactic(auto)]

pub mod back;
pub mod merge;
