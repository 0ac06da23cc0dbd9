// Messages in lent memory: one for each one of the matrix, check after check, a check's by rising bit. The last 512 of the 65,536 places are the row, in which
// a bit's messages stand side by side.
#![tactic(auto)]

pub mod copying;
pub mod filling;
