// The table of partitions into two subsets, PARTITION_SET_2. A `match` is a table in the program; a constant array would be copied to
// the stack at each look-up.
#![tactic(auto)]

ghost use Rattle.std.specs.Prelude.{◌≡◌, ◌<◌};
ghost use Rattle.bptc.specs.Internal.Masks.{mask_of, size_of, entry_of};
ghost use Rattle.bptc.specs.Partition.{subset_of, anchor_of};

// The mask of a partition: bit i is the subset of pixel i. Of any number, as callers count partitions by numbers; 0 past the table.
#[tactic(auto, unfolding(bptc::specs::Partition::table, bptc::specs::Partition::masks, bptc::specs::Partition::digits_of))]
pub fn mask(partition: usize) -> u16
    ensures { result ≡ mask_of partition }
{
    match partition {
        0 => 52428,
        1 => 34952,
        2 => 61166,
        3 => 60616,
        4 => 51328,
        5 => 65260,
        6 => 65224,
        7 => 60544,
        8 => 51200,
        9 => 65516,
        10 => 65152,
        11 => 59392,
        12 => 65512,
        13 => 65280,
        14 => 65520,
        15 => 61440,
        16 => 63248,
        17 => 142,
        18 => 28928,
        19 => 2254,
        20 => 140,
        21 => 29456,
        22 => 12544,
        23 => 36046,
        24 => 2188,
        25 => 12560,
        26 => 26214,
        27 => 13932,
        28 => 6120,
        29 => 4080,
        30 => 29070,
        31 => 14748,
        32 => 43690,
        33 => 61680,
        34 => 23130,
        35 => 13260,
        36 => 15420,
        37 => 21930,
        38 => 38550,
        39 => 42330,
        40 => 29646,
        41 => 5064,
        42 => 12876,
        43 => 15324,
        44 => 27030,
        45 => 49980,
        46 => 39270,
        47 => 1632,
        48 => 626,
        49 => 1252,
        50 => 20032,
        51 => 10016,
        52 => 51510,
        53 => 37740,
        54 => 14790,
        55 => 25500,
        56 => 37686,
        57 => 40134,
        58 => 33150,
        59 => 59160,
        60 => 52464,
        61 => 4044,
        62 => 30532,
        63 => 60962,
        _ => 0,
    }
}

// A partition of the table.
#[derive(Clone, Copy)]
pub struct Partition {
    pub number: u8,
    ghost inside: { number < 64 },
}

impl Partition {
    // Its mask: bit i is the subset of pixel i.
    pub fn mask(self) -> u16
        ensures { result ≡ mask_of self.number }
    {
        mask(usize::from(self.number))
    }

    // The subset of a pixel. Requires one of the sixteen, as the place in an array that a loop counts.
    #[tactic(auto, unfolding(bptc::specs::Partition::subset_of))]
    pub fn subset(self, pixel: usize) -> u8
        requires { pixel < 16 }
        ensures { result ≡ subset_of 2 self.number pixel }
    {
        // narrows a value that the check proves to fit
        ((self.mask() >> pixel) % 2) as u8
    }

    // The anchor pixel of subset 1.
    #[tactic(auto, unfolding(bptc::specs::Partition::anchors, bptc::specs::Partition::anchor_of))]
    pub fn anchor(self) -> usize
        ensures { (result ≡ anchor_of 2 self.number 1) × (result < 16) }
    {
        match self.number {
            0 => 15,
            1 => 15,
            2 => 15,
            3 => 15,
            4 => 15,
            5 => 15,
            6 => 15,
            7 => 15,
            8 => 15,
            9 => 15,
            10 => 15,
            11 => 15,
            12 => 15,
            13 => 15,
            14 => 15,
            15 => 15,
            16 => 15,
            17 => 2, // whose subset 1 begins at pixel 1
            18 => 8,
            19 => 2,
            20 => 2,
            21 => 8,
            22 => 8,
            23 => 15,
            24 => 2,
            25 => 8,
            26 => 2,
            27 => 2,
            28 => 8,
            29 => 8,
            30 => 2,
            31 => 2,
            32 => 15,
            33 => 15,
            34 => 6,
            35 => 8,
            36 => 2,
            37 => 8,
            38 => 15,
            39 => 15,
            40 => 2,
            41 => 8,
            42 => 2,
            43 => 2,
            44 => 2,
            45 => 15,
            46 => 15,
            47 => 6,
            48 => 6,
            49 => 2,
            50 => 6,
            51 => 8,
            52 => 15,
            53 => 15,
            54 => 2,
            55 => 2,
            56 => 15,
            57 => 15,
            58 => 15,
            59 => 15,
            60 => 15,
            61 => 2,
            62 => 2,
            63 => 15,
            _ => 0,
        }
    }

    // How many pixels lie in subset 1.
    #[tactic(auto, using(lists::proofs::Digits::ones_is, bptc::proofs::PartitionRule::placed), unfolding(bptc::specs::Internal::Masks::size_of))]
    pub fn size(self) -> u32
        ensures { result ≡ size_of self.number }
    {
        u16::count_ones(self.mask())
    }

    // The indices of two bits: all ones at the pixels of subset 1, and its anchor above them.
    #[tactic(auto, unfolding(bptc::specs::Partition::table, bptc::specs::Partition::masks, bptc::specs::Partition::anchors, bptc::specs::Partition::digits_of, bptc::specs::Partition::subset_of, bptc::specs::Partition::anchor_of, bptc::specs::Internal::Masks::ones_of, bptc::specs::Internal::Masks::entry_of, lists::specs::Bits::join))]
    pub fn entry2(self) -> u64
        ensures { result ≡ entry_of 2 self.number }
    {
        match self.number {
            0 => 0x000F_F0F0_F0F0,
            1 => 0x000F_C0C0_C0C0,
            2 => 0x000F_FCFC_FCFC,
            3 => 0x000F_FCF0_F0C0,
            4 => 0x000F_F0C0_C000,
            5 => 0x000F_FFFC_FCF0,
            6 => 0x000F_FFFC_F0C0,
            7 => 0x000F_FCF0_C000,
            8 => 0x000F_F0C0_0000,
            9 => 0x000F_FFFF_FCF0,
            10 => 0x000F_FFFC_C000,
            11 => 0x000F_FCC0_0000,
            12 => 0x000F_FFFF_FCC0,
            13 => 0x000F_FFFF_0000,
            14 => 0x000F_FFFF_FF00,
            15 => 0x000F_FF00_0000,
            16 => 0x000F_FF3F_0300,
            17 => 0x0002_0000_C0FC,
            18 => 0x0008_3F03_0000,
            19 => 0x0002_00C0_F0FC,
            20 => 0x0002_0000_C0F0,
            21 => 0x0008_3F0F_0300,
            22 => 0x0008_0F03_0000,
            23 => 0x000F_C0F0_F0FC,
            24 => 0x0002_00C0_C0F0,
            25 => 0x0008_0F03_0300,
            26 => 0x0002_3C3C_3C3C,
            27 => 0x0002_0F3C_3CF0,
            28 => 0x0008_033F_FCC0,
            29 => 0x0008_00FF_FF00,
            30 => 0x0002_3F03_C0FC,
            31 => 0x0002_0FC3_C3F0,
            32 => 0x000F_CCCC_CCCC,
            33 => 0x000F_FF00_FF00,
            34 => 0x0006_33CC_33CC,
            35 => 0x0008_0F0F_F0F0,
            36 => 0x0002_0FF0_0FF0,
            37 => 0x0008_3333_CCCC,
            38 => 0x000F_C33C_C33C,
            39 => 0x000F_CC33_33CC,
            40 => 0x0002_3F0F_F0FC,
            41 => 0x0008_030F_F0C0,
            42 => 0x0002_0F0C_30F0,
            43 => 0x0002_0FCF_F3F0,
            44 => 0x0002_3CC3_C33C,
            45 => 0x000F_F00F_0FF0,
            46 => 0x000F_C3C3_3C3C,
            47 => 0x0006_003C_3C00,
            48 => 0x0006_000C_3F0C,
            49 => 0x0002_0030_FC30,
            50 => 0x0006_30FC_3000,
            51 => 0x0008_0C3F_0C00,
            52 => 0x000F_F0C3_0F3C,
            53 => 0x000F_C30F_3CF0,
            54 => 0x0002_0FC3_F03C,
            55 => 0x0002_3C0F_C3F0,
            56 => 0x000F_C30F_0F3C,
            57 => 0x000F_C3F0_F03C,
            58 => 0x000F_C003_3FFC,
            59 => 0x000F_FC3F_03C0,
            60 => 0x000F_F0F0_FF00,
            61 => 0x0002_00FF_F0F0,
            62 => 0x0002_3F3F_3030,
            63 => 0x000F_FCFC_0C0C,
            _ => 0,
        }
    }

    // The indices of three bits: all ones at the pixels of subset 1, and its anchor above them.
    // A table beside `entry2` and not one over the width: no entry is shared, and to spread the mask at every call is slower (packing 188
    // to 227 instructions, with an older kit).
    #[tactic(auto, unfolding(bptc::specs::Partition::table, bptc::specs::Partition::masks, bptc::specs::Partition::anchors, bptc::specs::Partition::digits_of, bptc::specs::Partition::subset_of, bptc::specs::Partition::anchor_of, bptc::specs::Internal::Masks::ones_of, bptc::specs::Internal::Masks::entry_of, lists::specs::Bits::join))]
    pub fn entry3(self) -> u64
        ensures { result ≡ entry_of 3 self.number }
    {
        match self.number {
            0 => 0x000F_FC0F_C0FC_0FC0,
            1 => 0x000F_E00E_00E0_0E00,
            2 => 0x000F_FF8F_F8FF_8FF8,
            3 => 0x000F_FF8F_C0FC_0E00,
            4 => 0x000F_FC0E_00E0_0000,
            5 => 0x000F_FFFF_F8FF_8FC0,
            6 => 0x000F_FFFF_F8FC_0E00,
            7 => 0x000F_FF8F_C0E0_0000,
            8 => 0x000F_FC0E_0000_0000,
            9 => 0x000F_FFFF_FFFF_8FC0,
            10 => 0x000F_FFFF_F8E0_0000,
            11 => 0x000F_FF8E_0000_0000,
            12 => 0x000F_FFFF_FFFF_8E00,
            13 => 0x000F_FFFF_FF00_0000,
            14 => 0x000F_FFFF_FFFF_F000,
            15 => 0x000F_FFF0_0000_0000,
            16 => 0x000F_FFF1_FF00_7000,
            17 => 0x0002_0000_00E0_0FF8,
            18 => 0x0008_1FF0_0700_0000,
            19 => 0x0002_000E_00FC_0FF8,
            20 => 0x0002_0000_00E0_0FC0,
            21 => 0x0008_1FF0_3F00_7000,
            22 => 0x0008_03F0_0700_0000,
            23 => 0x000F_E00F_C0FC_0FF8,
            24 => 0x0002_000E_00E0_0FC0,
            25 => 0x0008_03F0_0700_7000,
            26 => 0x0002_1F81_F81F_81F8,
            27 => 0x0002_03F1_F81F_8FC0,
            28 => 0x0008_0071_FFFF_8E00,
            29 => 0x0008_000F_FFFF_F000,
            30 => 0x0002_1FF0_07E0_0FF8,
            31 => 0x0002_03FE_07E0_7FC0,
            32 => 0x000F_E38E_38E3_8E38,
            33 => 0x000F_FFF0_00FF_F000,
            34 => 0x0006_1C7E_381C_7E38,
            35 => 0x0008_03F0_3FFC_0FC0,
            36 => 0x0002_03FF_C003_FFC0,
            37 => 0x0008_1C71_C7E3_8E38,
            38 => 0x000F_E071_F8E0_71F8,
            39 => 0x000F_E381_C71C_7E38,
            40 => 0x0002_1FF0_3FFC_0FF8,
            41 => 0x0008_0070_3FFC_0E00,
            42 => 0x0002_03F0_381C_0FC0,
            43 => 0x0002_03FE_3FFC_7FC0,
            44 => 0x0002_1F8E_07E0_71F8,
            45 => 0x000F_FC00_3F03_FFC0,
            46 => 0x000F_E07E_071F_81F8,
            47 => 0x0006_0001_F81F_8000,
            48 => 0x0006_0000_381F_F038,
            49 => 0x0002_0001_C0FF_81C0,
            50 => 0x0006_1C0F_F81C_0000,
            51 => 0x0008_0381_FF03_8000,
            52 => 0x000F_FC0E_0703_F1F8,
            53 => 0x000F_E070_3F1F_8FC0,
            54 => 0x0002_03FE_07FC_01F8,
            55 => 0x0002_1F80_3FE0_7FC0,
            56 => 0x000F_E070_3F03_F1F8,
            57 => 0x000F_E07F_C0FC_01F8,
            58 => 0x000F_E000_071F_FFF8,
            59 => 0x000F_FF81_FF00_7E00,
            60 => 0x000F_FC0F_C0FF_F000,
            61 => 0x0002_000F_FFFC_0FC0,
            62 => 0x0002_1FF1_FF1C_01C0,
            63 => 0x000F_FF8F_F803_8038,
            _ => 0,
        }
    }
}
