// The search in four columns that are four choices, each with four colours in both subsets.
#![tactic(auto)]

pub mod least;
pub mod sums;
