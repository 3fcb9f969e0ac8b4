// Numbers of a command that keep their limits.
ghost use Rattle.std.specs.Prelude.{◌<◌, ◌≤◌};

// How many of the worst blocks are shown.
#[derive(Clone, Copy, Debug, PartialEq, Eq)]
pub struct Worst {
    pub count: usize,
    ghost some: { (0 < count) × (count ≤ 1000) },
}

impl Worst {
    // The most of the worst blocks that can be shown.
    pub const MOST: usize = 1000;
}

// The width of a picture in pixels.
#[derive(Clone, Copy, Debug, PartialEq, Eq)]
pub struct Width {
    pub pixels: usize,
    ghost sized: { (0 < pixels) × (pixels ≤ 16384) },
}
