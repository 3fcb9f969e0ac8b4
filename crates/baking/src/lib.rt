// A photograph baked into a plate, with the built-in proposals or with those of a file.
#![tactic(auto)]

pub mod baking;
mod proposing;
mod refused;
