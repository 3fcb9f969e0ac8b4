// The values that the definitions of BC7 blocks speak of, and a colour as one number. The chapter's partitions, colours and palettes are
// this crate's specs/, and the laws about them its proofs/.
#![tactic(auto)]

mod number;

// A colour of three channels, stored or shown.
#[derive(Clone, Copy)]
pub struct Rgb {
    pub r: u8,
    pub g: u8,
    pub b: u8,
}

// A colour that is shown, as one number: red lowest, then green, then blue.
#[derive(Clone, Copy)]
pub struct Colour(pub u32);
