// What the calls are handed: lent parts, endpoints, fields and candidates.
use block::{Candidate, Fields, PBits, Rgb};

// What a part holds before a call that may decline it.
pub(crate) const KEPT: u8 = 165;

// How many bytes are not this one.
pub(crate) fn count_other(part: &[u8], byte: u8) -> usize {
    part.iter().filter(|other| **other != byte).count()
}

// How many bytes of a part are not as they were before the call.
pub(crate) fn changed(part: &[u8]) -> usize {
    count_other(part, KEPT)
}

// An endpoint with every channel the same. The other program of checks has its own, as the two share no crate of theirs.
fn grey(channel: u8) -> Rgb {
    Rgb {
        r: channel,
        g: channel,
        b: channel,
    }
}

// Four endpoints with every channel the same.
pub(crate) fn level(channel: u8) -> [Rgb; 4] {
    [grey(channel); 4]
}

// Four endpoints whose channels are 0, but for those of endpoint 0 and the last one of endpoint 3.
pub(crate) fn ends_with(first: u8, last: u8) -> [Rgb; 4] {
    let black = grey(0);
    [grey(first), black, black, Rgb { b: last, ..black }]
}

// Fields with every channel and every index the same.
pub(crate) fn fields(partition: u8, channel: u8, p: u8, index: u8) -> Fields {
    Fields {
        partition,
        ends: level(channel),
        p,
        indices: [index; 16],
    }
}

// The candidate of a mode whose numbers are all 0.
pub(crate) fn zero(mode: u8) -> Candidate {
    candidate(mode, 0, 0, 0)
}

// A candidate with fixed p-bits whose channels are 0, but for the last one of endpoint 3.
pub(crate) fn candidate(mode: u8, partition: u8, last: u8, p: u8) -> Candidate {
    Candidate {
        mode,
        partition,
        ends: ends_with(0, last),
        p: PBits::Fixed(p),
    }
}

// A candidate with free p-bits.
pub(crate) fn freed(candidate: Candidate) -> Candidate {
    Candidate {
        p: PBits::Free,
        ..candidate
    }
}
