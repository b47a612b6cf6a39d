// The message that a body completes: where it stands, and the part of the body or of the join buffer that it is (document 01, "Collecting
// pieces").
//
// `place_message` has the rule: in the body where the message came in one piece, else in the join buffer. `find_message` asks an answer for
// its message, `own_part` lends from the body and `joined_part` from the join buffer, as that rule has it. They take any outcome of the
// collector, any body and any join buffer: where no message is complete, or it stands in the other of the two, nothing is lent. They write
// nothing and copy nothing.
#![tactic(auto)]

ghost use Rattle.std.specs.Prelude.{◌≡◌};
ghost use Rattle.collector.specs.Answers.{said, complete, place_of};
ghost use Rattle.wire.specs.Parts.{part};
ghost use Rattle.messages.specs.Place.{placed, front_of, behind_of, own_part, joined_part};

use collector::{Answer, Outcome};

// Which of the two a message stands in.
#[derive(Clone, Copy, PartialEq, Eq)]
pub enum Source {
    Body,
    Join,
}

// Where a message stands: `length` bytes from the byte `start` of the body or of the join buffer.
#[derive(Clone, Copy, PartialEq, Eq)]
pub struct Place {
    pub source: Source,
    pub start: usize,
    pub length: usize,
}

// The first `n` bytes, or all where there are fewer.
fn front<'a>(bytes: &'a [u8], n: usize) -> &'a [u8]
    ensures { part result.ref_ptr result.now ≡ front_of n (part bytes.entry.ref_ptr bytes.now) }
{
    &bytes[..n.min(bytes.len())]
}

// The bytes from the place `n` on; none, at their end, where there are fewer.
fn behind<'a>(bytes: &'a [u8], n: usize) -> &'a [u8]
    ensures { part result.ref_ptr result.now ≡ behind_of n (part bytes.entry.ref_ptr bytes.now) }
{
    &bytes[n.min(bytes.len())..]
}

// Where a complete message of this length stands; `number` is that of the record after it.
pub fn place_message(length: usize, number: u8) -> Place
    ensures { placed (Some result) ≡ place_of (complete length) number }
{
    if number == 1 {
        return Place {
            source: Source::Body,
            start: 3,
            length,
        };
    }
    Place {
        source: Source::Join,
        start: 0,
        length,
    }
}

// Where the message stands that an answer completes; `number` is that of the record after it.
pub fn find_message(answer: Answer, number: u8) -> Option<Place>
    ensures { placed result ≡ place_of (said answer) number }
{
    match answer {
        Answer::Complete(length) => Some(place_message(length, number)),
        _ => None,
    }
}

// The part of the body that is lent with an outcome.
#[tactic(auto, unfolding(crate::specs::Place::own_part))]
pub fn own_part<'b>(outcome: Outcome, body: &'b [u8]) -> &'b [u8]
    ensures { part result.ref_ptr result.now ≡ own_part (said outcome.answer) outcome.held.number (part body.entry.ref_ptr body.now) }
{
    match find_message(outcome.answer, outcome.held.number) {
        Some(place) if place.source == Source::Body => behind(body, place.start),
        _ => &body[..0],
    }
}

// The part of the join buffer that is lent with an outcome.
#[tactic(auto, unfolding(crate::specs::Place::joined_part))]
pub fn joined_part<'j>(outcome: Outcome, join: &'j [u8]) -> &'j [u8]
    ensures { part result.ref_ptr result.now ≡ joined_part (said outcome.answer) outcome.held.number (part join.entry.ref_ptr join.now) }
{
    match find_message(outcome.answer, outcome.held.number) {
        Some(place) if place.source == Source::Join => {
            front(behind(join, place.start), place.length)
        },
        _ => &join[..0],
    }
}
