// The Hadamard sweep: one scan in list order notes what fires on each wire, then wire by wire it is carried out. The lent slices go
// apart: document 01, "separate lent slices".
#![tactic(auto)]

pub mod closing;
pub mod firing;
pub mod noting;
