// The pass: the loop over the three sweeps, and the entry.
#![tactic(auto)]

pub mod entry;
pub mod rounds;
