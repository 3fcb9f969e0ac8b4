// Keys, by which the search compares colours.
#![tactic(auto)]

pub mod key;
