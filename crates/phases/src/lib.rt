// The two phases of a round, on the messages in lent memory: all checks send, and all bits send.
#![tactic(auto)]

pub mod bits;
pub mod checks;
