// The answers to a body as numbers: collected, or taken all the way to a table, for records by value.
//
// `collect_value` and `receive_value`. They take any record, table, buffers and body, and answer what the collector and the
// receiver answer; an enum cannot cross to C, so each answer is a struct of numbers, of which specs/ says what they mean.
#![tactic(auto)]

ghost use Rattle.std.specs.Prelude.{◌≡◌};
ghost use Rattle.collector.specs.Answers.{said};
ghost use Rattle.messages.specs.Place.{placed};
ghost use Rattle.receiver.specs.Receive.{told};
ghost use Rattle.dsg_pieces.specs.Bodies.{complete_at, collected_of, collect_after, received_of, receive_after};

use collection::Collection;
use collector::Answer;
use messages::{Place, Source};
use receiver::Report;
use refusals::Refusal;
use table::Table;

// Kept: C is given it (include/dsg.h): fields, order and types.
// What a body is answered. Kind 0: refused, `number` says why. 1: a repeat. 2: waiting for `empty` slots.
// 3, 4: complete; the message is `length` bytes from `start` of the body (3) or of the join buffer (4).
// 5: dropped, by `number` (21) at byte `offset`.
#[repr(C)]
#[derive(Clone, Copy)]
pub struct Collected {
    pub kind: u32,
    pub number: u32,
    pub empty: usize,
    pub start: usize,
    pub length: usize,
    pub offset: usize,
}

// Kept: C is given it (include/dsg.h): fields, order and types.
// What a body that goes all the way is answered. Kind 0: refused, `number` says why. 1: a repeat. 2: waiting
// for `empty` slots. 3: the table is the message's. 4: the message is refused, by `number` at byte `offset`.
// 5: the collection is dropped, by `number` (21) at byte `offset`.
#[repr(C)]
#[derive(Clone, Copy)]
pub struct Received {
    pub kind: u32,
    pub number: u32,
    pub empty: usize,
    pub offset: usize,
}

// What a kind does not use.
const NOTHING_COLLECTED: Collected = Collected {
    kind: 0,
    number: 0,
    empty: 0,
    start: 0,
    length: 0,
    offset: 0,
};

const NOTHING_RECEIVED: Received = Received {
    kind: 0,
    number: 0,
    empty: 0,
    offset: 0,
};

// An answer, and the record and the table after it.
#[derive(Clone, Copy)]
pub struct ReceiveStepped {
    pub answer: Received,
    pub held: Collection,
    pub table: Table,
}

// An answer, and the record after it.
#[derive(Clone, Copy)]
pub struct CollectStepped {
    pub answer: Collected,
    pub held: Collection,
}

// The numbers of a message that is complete, by where it stands.
fn complete_from(place: Place) -> Collected
    ensures { result ≡ complete_at (placed (Some place)) }
{
    let kind = match place.source {
        Source::Body => 3,
        Source::Join => 4,
    };
    Collected {
        kind,
        start: place.start,
        length: place.length,
        ..NOTHING_COLLECTED
    }
}

// The numbers of an answer; `number` is that of the record after it.
#[tactic(auto, unfolding(refusals::specs::Refusals::number_of))]
fn collected_from(answer: Answer, number: u8) -> Collected
    ensures { result ≡ collected_of (said answer) number }
{
    match answer {
        Answer::Refused(number) => Collected {
            number: number as u32,
            ..NOTHING_COLLECTED
        },
        Answer::Repeat => Collected {
            kind: 1,
            ..NOTHING_COLLECTED
        },
        Answer::Waiting(empty) => Collected {
            kind: 2,
            empty: empty as usize,
            ..NOTHING_COLLECTED
        },
        Answer::Complete(length) => complete_from(messages::place_message(length, number)),
        Answer::Dropped(offset) => Collected {
            kind: 5,
            number: Refusal::BadCut.number() as u32,
            offset,
            ..NOTHING_COLLECTED
        },
    }
}

// The same record, copied field by field. Copied whole it is stored in blocks of sixteen bytes: `filled` and `lengths` lie across them,
// and a processor that reads such a list waits until its blocks are written.
// Kept: as a plain copy it makes loose collecting slower (docs/DECISIONS.md, D-074).
fn apart(held: Collection) -> Collection
    ensures { result ≡ held }
{
    let filled = held.filled;
    let lengths = held.lengths;
    Collection {
        count: held.count,
        number: held.number,
        filled,
        lengths,
        strict: held.strict,
    }
}

// One body for a record by value.
pub fn collect_value(
    held: Collection,
    slots: &mut [u8],
    join: &mut [u8],
    body: &[u8],
) -> CollectStepped
    ensures { record { answer = result.answer; held = result.held; slots = slots.new; join = join.new } ≡ collect_after held slots.old join.old body.now }
{
    let outcome = collector::collect(apart(held), slots, join, body);
    CollectStepped {
        answer: collected_from(outcome.answer, outcome.held.number),
        held: outcome.held,
    }
}

// The numbers of a report.
#[tactic(auto, unfolding(refusals::specs::Refusals::number_of))]
fn received_from(report: Report) -> Received
    ensures { result ≡ received_of (told report) }
{
    match report {
        Report::BodyRefused(number) => Received {
            number: number as u32,
            ..NOTHING_RECEIVED
        },
        Report::Repeat => Received {
            kind: 1,
            ..NOTHING_RECEIVED
        },
        Report::Waiting(empty) => Received {
            kind: 2,
            empty: empty as usize,
            ..NOTHING_RECEIVED
        },
        Report::Accepted => Received {
            kind: 3,
            ..NOTHING_RECEIVED
        },
        Report::MessageRefused(fault) => Received {
            kind: 4,
            number: fault.refusal.number() as u32,
            offset: fault.offset,
            ..NOTHING_RECEIVED
        },
        Report::Dropped(offset) => Received {
            kind: 5,
            number: Refusal::BadCut.number() as u32,
            offset,
            ..NOTHING_RECEIVED
        },
    }
}

// One body all the way, for a record and a table by value.
pub fn receive_value(
    held: Collection,
    table: Table,
    slots: &mut [u8],
    join: &mut [u8],
    body: &[u8],
) -> ReceiveStepped
    ensures { record { answer = result.answer; held = result.held; table = result.table; slots = slots.new; join = join.new } ≡ receive_after held table slots.old join.old body.now }
{
    let left = receiver::receive(held, table, slots, join, body);
    ReceiveStepped {
        answer: received_from(left.report),
        held: left.held,
        table: left.table,
    }
}
