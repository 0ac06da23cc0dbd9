// The splits that a record carries: those of its words performed on a matrix, and those of a matrix taken back.
#![tactic(auto)]

pub mod perform;
pub mod recover;
