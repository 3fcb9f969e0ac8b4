// Candidates for blocks, from records of sixteen bytes or from the box around each subset's colours, and choosing among them.
#![tactic(auto)]

ghost use Rattle.std.specs.Prelude.{◌≡◌, map, ◌*◌, length};
ghost use Rattle.refusals.specs.Numbers.{declined};
ghost use Rattle.chooser.specs.OfferCall.{offer_refusal};
ghost use Rattle.chooser.specs.Calls.{after};
ghost use Rattle.proposals.specs.Offers.{offers};
ghost use Rattle.proposals.specs.Records.{candidates_in};

use crate::records::candidate;
use chooser::{Chooser, Refusal};

pub mod baking;
pub mod built_in;
pub mod records;

// Offers the candidates of records in order, and writes the answer of each. Requires sixteen bytes of records for each answer. A record is
// taken by its place, and not by a `zip`: a proof knows nothing of what is written through `iter_mut` under one.
#[tactic(auto, unfolding(crate::specs::Records::candidates_in, lists::specs::Rows::written, chooser::specs::Calls::after))]
pub fn offer_records(ch: Chooser, records: &[u8], answers: &mut [Result<(), Refusal>]) -> Chooser
    requires { length records.now ≡ 16 * length answers.old }
    ensures answer { result ≡ after ch (offers (candidates_in records.now (length answers.old))) }
    ensures part { map declined answers.new ≡ map offer_refusal (candidates_in records.now (length answers.old)) }
{
    let mut held = ch;
    for (k, answer) in answers.iter_mut().enumerate() {
        let at = k * 16;
        let (given, next) = held.offer(candidate(&records[at..at + 16]));
        *answer = given;
        held = next;
    }
    held
}
