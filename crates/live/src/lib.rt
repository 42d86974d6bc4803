// The live list: the gates being worked on, as live slots in lent records and words. Loading, changes, finish. What changes it takes
// the lent slices apart, as the sweeps do: document 01, "The destructured `&mut Scratch` becomes separate lent slices".
#![tactic(auto)]

pub mod change;
pub mod finish;
pub mod load;
pub mod trial;
