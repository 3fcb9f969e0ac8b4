// What is picked of several searches.
ghost use Rattle.std.specs.Prelude.{◌≡◌};
ghost use Rattle.lists.specs.Tests.{pick};
ghost use Rattle.closest.specs.Pick.{mixed};

// The indices as one number with the first lowest, the raised distances in sum, and the p-bits. A struct and no tuple, since contracts
// and definitions name its parts.
#[derive(Clone, Copy)]
pub struct Picked {
    pub indexes: u64,
    pub sum: u32,
    pub p: u8,
}

// The second of two values where a test holds, and else the first.
pub fn either<T: Copy>(t: bool, a: T, b: T) -> T
    ensures { result ≡ pick t b a }
{
    if t { b } else { a }
}

// The bits of b where those of `ones` are set, and else those of a.
pub fn mix(a: u64, b: u64, ones: u64) -> u64
    ensures { result ≡ mixed a b ones }
{
    a ^ ((a ^ b) & ones)
}
