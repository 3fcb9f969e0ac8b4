// What a block of modes 1 and 3 holds, and the answers of the calls. This crate has no code: its specs/ are the chapter's layout and
// reading, the refusals and finishing, and its proofs/ the laws about them.
#![tactic(auto)]

use bptc::Rgb;

// Partition, stored endpoints, p-bits as one number, and the sixteen full indices.
// Endpoints 0 and 1 are subset 0's, 2 and 3 subset 1's.
#[derive(Clone, Copy)]
pub struct Fields {
    pub partition: u8,
    pub ends: [Rgb; 4],
    pub p: u8,
    pub indices: [u8; 16],
}

// The same fields in fewer numbers: an endpoint is one, red lowest, and so are the sixteen indices. No type serves both, since definitions
// name the record of each.
#[derive(Clone, Copy)]
pub struct FieldWords {
    pub partition: u8,
    pub ends: [u32; 4],
    pub p: u8,
    pub indexes: u64,
}

// The p-bits of a candidate: left to the finisher, or one number. Not an Option: free p-bits are a choice, and none is missing.
#[derive(Clone, Copy)]
pub enum PBits {
    Free,
    Fixed(u8),
}

// A proposal for a block. The mode is any number, as the calls tell modes apart by number and decline the others.
#[derive(Clone, Copy)]
pub struct Candidate {
    pub mode: u8,
    pub partition: u8,
    pub ends: [Rgb; 4],
    pub p: PBits,
}

// The same proposal in fewer numbers: an endpoint is one, red lowest. As with `FieldWords`, no type serves both.
#[derive(Clone, Copy)]
pub struct CandidateWords {
    pub mode: u8,
    pub partition: u8,
    pub ends: [u32; 4],
    pub p: PBits,
}

// What `read` gives of a block; its pixels stand in the lent part. The mode is its number, as the specification has it.
#[derive(Clone, Copy)]
pub struct Reading {
    pub mode: u8,
    pub fields: Fields,
}
