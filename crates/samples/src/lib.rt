// What the programs that run the calls share: answers as text, matrices of document 01's cases, and words of ones.
#![tactic(auto)]

pub mod cases;
pub mod say;
pub mod words;
