// The pair sweep: the first while the list is loaded, the later ones over the live list. The lent slices go
// apart: document 01, "separate lent slices".
#![tactic(auto)]

pub mod first;
pub mod later;
