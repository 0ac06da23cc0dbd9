// Soft bits: 32-bit floats, and values in slices of bytes and floats.
#![tactic(auto)]

pub mod floats;
pub mod store;
