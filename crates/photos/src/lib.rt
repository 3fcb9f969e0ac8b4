// Photographs that are read, and pictures that are written.
#![tactic(auto)]

pub mod photo;
pub mod picture;
