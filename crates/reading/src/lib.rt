// What the words of a record say: their kinds, and whether the record is right or at which place it is faulty.
#![tactic(auto)]

pub mod judge;
pub mod words;
