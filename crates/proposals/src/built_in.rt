// The built-in proposals: for each partition, in each mode, the corners of the box around each subset's colours.
ghost use Rattle.std.specs.Prelude.{◌≡◌};
ghost use Rattle.chooser.specs.Calls.{after};
ghost use Rattle.proposals.specs.Offers.{offers};
ghost use Rattle.corners.specs.Corners.{planes_of};
ghost use Rattle.proposals.specs.BuiltIn.{stored_in, between_corners, both_of, proposals_of};

use block::{Candidate, PBits, Rgb};
use chooser::Chooser;
use corners::{Boxes, Planes};
use palette::{Mode, Mode1, Mode3};
use partitions::mask;

// A colour as a mode stores it: the highest bits of each channel, by a line for each field of `Rgb`.
fn stored<M: Mode>(c: Rgb) -> Rgb
    ensures { result ≡ stored_in M.mode.number c }
{
    let step = 1 << (8 - M::CHANNEL_BITS);
    Rgb {
        r: c.r / step,
        g: c.g / step,
        b: c.b / step,
    }
}

// The proposal between the corners of the two subsets' boxes, with its p-bits free.
#[tactic(auto, unfolding(crate::specs::BuiltIn::between_corners))]
fn proposal<M: Mode>(partition: u8, boxes: Boxes) -> Candidate
    ensures { result ≡ between_corners M.mode.number partition boxes.first boxes.second }
{
    let Boxes { first, second } = boxes;
    Candidate {
        mode: M::NUMBER,
        partition,
        ends: [
            stored::<M>(first.low),
            stored::<M>(first.high),
            stored::<M>(second.low),
            stored::<M>(second.high),
        ],
        p: PBits::Free,
    }
}

// Offers a partition's proposals, mode 1 and then mode 3. Requires the planes of the chooser's pixels.
#[tactic(auto, using(corners::proofs::Boxing::boxes_corners), unfolding(chooser::specs::Calls::after))]
fn offer_both(ch: Chooser, planes: &Planes, partition: u8) -> Chooser
    requires { planes.now ≡ planes_of ch.pixels }
    ensures { result ≡ after ch (offers (both_of ch.pixels partition)) }
{
    let boxes = planes.boxes(mask(usize::from(partition)));
    let (_, held) = ch.offer(proposal::<Mode1>(partition, boxes));
    let (_, last) = held.offer(proposal::<Mode3>(partition, boxes));
    last
}

// Offers the built-in proposals.
#[tactic(auto, using(crate::proofs::Offering::proposals_next), unfolding(chooser::specs::Calls::after, lists::specs::Parts::joined))]
pub fn built_in(ch: Chooser) -> Chooser
    ensures { result ≡ after ch (offers (proposals_of ch.pixels)) }
{
    let planes = Planes::of(&ch.pixels);
    let mut held = ch;
    for partition in 0..64 {
        held = offer_both(held, &planes, partition);
    }
    held
}
