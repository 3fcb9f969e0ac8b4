// Decimal numbers as text, the words of a command line, and the header of a binary PPM picture.
#![tactic(auto)]

pub mod decimal;
pub mod line;
pub mod ppm;
pub mod words;
