// The Rust's own steps, held against the chapter's. This crate has no code: its specs/ are the functions of image-dds and the
// statements of demand 2 about packing and finishing, and its proofs/ the laws that lead to them.
#![tactic(auto)]
