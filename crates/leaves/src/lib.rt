// Decisions on single gates: equal gates, canonical pairs, runs.
#![tactic(auto)]

pub mod equal;
pub mod pairs;
pub mod runs;
