// The modes: what tells one from another.
ghost use Rattle.std.specs.Prelude.{◌≡◌, ℕ, suc, ◌-◌, ◌≤◌, ◌^◌, List, [], ◌∷◌, refl};
ghost use Rattle.bptc.specs.Mode.{Mode as ModeRecord, mode1, mode3, IsMode, largest, p_bits};
ghost use Rattle.bptc.specs.Internal.Palette.{row_weights};
ghost use Rattle.bptc.proofs.Modes.{is_mode1, is_mode3};

use crate::colour::Width;

// A mode, by its number, its widths and its weights.
pub trait Mode {
    const NUMBER: u8;

    // The bits of a stored channel.
    const CHANNEL_BITS: u32;

    // The bits of an index.
    const INDEX_BITS: u32;

    // How many p-bits a block has.
    const P_BITS: u32;

    // The weights at the indices, in parts of 256, and 0 past the largest.
    const WEIGHTS: [u16; 8];

    ghost NUMBER: { ℕ };

    ghost CHANNEL_BITS: { ℕ };

    ghost INDEX_BITS: { ℕ };

    ghost P_BITS: { ℕ };

    ghost WEIGHTS: { List ℕ };

    // The chapter's record of the mode.
    ghost mode: { ModeRecord };

    ghost number_is: { NUMBER ≡ mode.number };

    ghost channel_bits_are: { CHANNEL_BITS ≡ mode.channel_bits };

    ghost index_bits_are: { INDEX_BITS ≡ mode.index_bits };

    ghost p_bits_are: { P_BITS ≡ p_bits mode };

    ghost weights_are: { WEIGHTS ≡ row_weights mode };

    ghost is_mode: { IsMode mode };

    // The width of a stored channel.
    #[inline(always)]
    final fn width() -> Width
        ensures { result.bits ≡ mode.channel_bits }
    {
        Width {
            bits: Self::CHANNEL_BITS,
        }
    }

    // The greatest channel. A function, as those after it are: no constant of a trait is computed of another.
    final fn max_channel() -> u8
        ensures { result ≡ 2 ^ mode.channel_bits - 1 }
    {
        (1 << Self::CHANNEL_BITS) - 1
    }

    // The greatest p-bits, as one number.
    final fn max_p() -> u8
        ensures { result ≡ 2 ^ p_bits mode - 1 }
    {
        (1 << Self::P_BITS) - 1
    }

    // The largest index.
    #[tactic(auto, unfolding(bptc::specs::Mode::largest))]
    final fn max_index() -> u8
        ensures { result ≡ largest mode }
    {
        (1 << Self::INDEX_BITS) - 1
    }

    // How many colours a palette has.
    #[tactic(auto, unfolding(bptc::specs::Mode::largest))]
    final fn colours() -> usize
        ensures { (result ≡ suc (largest mode)) × (result ≤ 8) }
    {
        1 << Self::INDEX_BITS
    }
}

// Mode 1: one p-bit for each subset.
#[derive(Clone, Copy)]
pub struct Mode1;

impl Mode for Mode1 {
    const NUMBER: u8 = 1;

    const CHANNEL_BITS: u32 = 6;

    const INDEX_BITS: u32 = 3;

    const P_BITS: u32 = 2;

    const WEIGHTS: [u16; 8] = [0, 36, 72, 108, 148, 184, 220, 256];

    ghost NUMBER = { 1 };

    ghost CHANNEL_BITS = { 6 };

    ghost INDEX_BITS = { 3 };

    ghost P_BITS = { 2 };

    ghost WEIGHTS = { 0 ∷ 36 ∷ 72 ∷ 108 ∷ 148 ∷ 184 ∷ 220 ∷ 256 ∷ [] };

    ghost mode = { mode1 };

    ghost number_is = { refl };

    ghost channel_bits_are = { refl };

    ghost index_bits_are = { refl };

    ghost p_bits_are = { refl };

    ghost weights_are = { refl };

    ghost is_mode = { is_mode1 };
}

// Mode 3: one p-bit for each endpoint.
#[derive(Clone, Copy)]
pub struct Mode3;

impl Mode for Mode3 {
    const NUMBER: u8 = 3;

    const CHANNEL_BITS: u32 = 7;

    const INDEX_BITS: u32 = 2;

    const P_BITS: u32 = 4;

    const WEIGHTS: [u16; 8] = [0, 84, 172, 256, 0, 0, 0, 0];

    ghost NUMBER = { 3 };

    ghost CHANNEL_BITS = { 7 };

    ghost INDEX_BITS = { 2 };

    ghost P_BITS = { 4 };

    ghost WEIGHTS = { 0 ∷ 84 ∷ 172 ∷ 256 ∷ 0 ∷ 0 ∷ 0 ∷ 0 ∷ [] };

    ghost mode = { mode3 };

    ghost number_is = { refl };

    ghost channel_bits_are = { refl };

    ghost index_bits_are = { refl };

    ghost p_bits_are = { refl };

    ghost weights_are = { refl };

    ghost is_mode = { is_mode3 };
}
