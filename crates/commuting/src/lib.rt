// The commuting sweep: each cnot, cz, ccx and ccz with its partner, over gates that may pass it. The lent slices go
// apart: document 01, "separate lent slices".
#![tactic(auto)]

pub mod sweep;
pub mod walk;
