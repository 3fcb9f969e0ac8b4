// The lowest layer of code for BC7 blocks in modes 1 and 3: shown colours, palettes and distances.
#![tactic(auto)]

pub use bptc::{Colour, Rgb};
pub use mode::{Mode, Mode1, Mode3};

pub mod colour;
pub mod mode;
pub mod palettes;
pub mod pixels;
