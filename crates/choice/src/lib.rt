// The choice of the pair that orthogonalising splits: the largest share, then the smallest lower bit, then the smallest higher bit.
#![tactic(auto)]

pub mod bounds;
mod numbers;
