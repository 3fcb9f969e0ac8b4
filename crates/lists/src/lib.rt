// Lists of numbers, whatever they stand for: choices, rows and sums, parts, the first of least error, digits, fields and bytes.
// This crate has no code: its specs/ are definitions, and its proofs/ the laws about them.
#![tactic(auto)]
