// Candidates as records of sixteen bytes. They are read by functions, since a `From` for another crate's type is no impl of this one.
ghost use Rattle.std.specs.Prelude.{◌≡◌, ◌/◌, length};
ghost use Rattle.proposals.specs.Records.{endpoint_in, endpoints_in, candidate_in, flags_good};

use block::{Candidate, PBits, Rgb};
use std::array;

// The endpoint of three bytes.
fn endpoint(bytes: &[u8]) -> Rgb
    requires { length bytes.now ≡ 3 }
    ensures { result ≡ endpoint_in bytes.now }
{
    Rgb {
        r: bytes[0],
        g: bytes[1],
        b: bytes[2],
    }
}

// The four endpoints of twelve bytes.
fn endpoints(bytes: &[u8]) -> [Rgb; 4]
    requires { length bytes.now ≡ 12 }
    ensures { result ≡ endpoints_in bytes.now }
{
    array::from_fn(|k| endpoint(&bytes[k * 3..k * 3 + 3]))
}

// The candidate of sixteen bytes: mode, partition, endpoints, p-bits, and 0 where these are fixed. The flag is a byte, as it is in a file.
#[tactic(auto, unfolding(crate::specs::Records::candidate_in))]
pub fn candidate(bytes: &[u8]) -> Candidate
    requires { length bytes.now ≡ 16 }
    ensures { result ≡ candidate_in bytes.now }
{
    Candidate {
        mode: bytes[0],
        partition: bytes[1],
        ends: endpoints(&bytes[2..14]),
        p: match bytes[15] {
            0 => PBits::Fixed(bytes[14]),
            _ => PBits::Free,
        },
    }
}

// Whether the last byte of each record is 0 or 1. A loop, since the proof by `all` did not close: what it says of a run of `chunks_exact` does
// not lead to a test of each record.
pub fn flags_good(records: &[u8]) -> bool
    ensures { result ≡ flags_good records.now (length records.now / 16) }
{
    for record in records.chunks_exact(16) {
        if record[15] > 1 {
            return false;
        }
    }
    true
}
