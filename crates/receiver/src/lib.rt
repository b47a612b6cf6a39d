// One body all the way: collected, and the message read when it is complete.
//
// One public function, `receive`. It takes any record, table, buffers and body: bad input is an answer, never a duty of
// the caller. A body refused with 1 to 5 changes nothing that is lent; one with 21 empties the record but for its setting, and leaves
// the table. A refused message leaves the table as it was given; its pieces
// stay collected, so that a further copy of one is a Repeat. Nothing is read before the message is complete.
#![tactic(auto)]

ghost use Rattle.std.specs.Prelude.{◌≡◌};
ghost use Rattle.collector.specs.Answers.{said, lent_of};
ghost use Rattle.reader.specs.Shown.{passed};
ghost use Rattle.receiver.specs.Receive.{told, reported, taken, receive_step};

use collection::Collection;
use collector::{Answer, Outcome};
use messages::Source;
use reader::Reading;
use refusals::Fault;
use table::Table;

// What a body is answered.
#[derive(Clone, Copy)]
pub enum Report {
    // The body is refused, 1 to 5; all that is lent is as it was.
    // Kept: a number and no Refusal, since the collector answers it as one (`collector::Answer::Refused`).
    BodyRefused(u8),
    // Its slot has these bytes already; nothing changes.
    Repeat,
    // Stored; so many slots are empty.
    Waiting(u8),
    // The message is complete, and the table is now its own.
    Accepted,
    // The message is complete and refused, at a byte of it; the table is as it was.
    MessageRefused(Fault),
    // The message is complete, and was cut inside an element, first at this byte: refusal 21. Nothing is collected, and the table is
    // as it was.
    Dropped(usize),
}

// The report, and the record and the table after the call.
#[derive(Clone, Copy)]
pub struct Received {
    pub report: Report,
    pub held: Collection,
    pub table: Table,
}

// How a verdict is reported.
#[tactic(auto, unfolding(reader::specs::Shown::passed))]
fn report_of(verdict: Result<(), Fault>) -> Report
    ensures { told result ≡ reported (passed verdict) }
{
    match verdict {
        Ok(()) => Report::Accepted,
        Err(fault) => Report::MessageRefused(fault),
    }
}

// What is answered after a reading.
fn finish(held: Collection, reading: Reading) -> Received
    ensures { (told result.report ≡ reported (passed reading.verdict)) × (result.held ≡ held) × (result.table ≡ reading.table) }
{
    Received {
        report: report_of(reading.verdict),
        held,
        table: reading.table,
    }
}

// The message of an outcome, from where it stands.
#[tactic(auto, unfolding(messages::specs::Place::own_part, messages::specs::Place::joined_part, collector::specs::Answers::lent_of))]
fn message_of<'m>(outcome: Outcome, body: &'m [u8], join: &'m [u8]) -> &'m [u8]
    ensures { result.now ≡ lent_of (said outcome.answer) outcome.held.number body.now join.now }
{
    match messages::find_message(outcome.answer, outcome.held.number) {
        Some(place) if place.source == Source::Body => messages::own_part(outcome, body),
        _ => messages::joined_part(outcome, join),
    }
}

// What is answered after the collector's outcome: a message that is complete is read.
#[tactic(auto, unfolding(reader::specs::Shown::shown, crate::specs::Receive::taken))]
fn take_up(outcome: Outcome, table: Table, body: &[u8], join: &[u8]) -> Received
    ensures { (record { report = told result.report; table = result.table } ≡ taken (said outcome.answer) table (lent_of (said outcome.answer) outcome.held.number body.now join.now)) × (result.held ≡ outcome.held) }
{
    let held = outcome.held;
    let report = match outcome.answer {
        Answer::Refused(number) => Report::BodyRefused(number),
        Answer::Repeat => Report::Repeat,
        Answer::Waiting(empty) => Report::Waiting(empty),
        Answer::Complete(_) => {
            let message = message_of(outcome, body, join);
            return finish(held, reader::read_table(table, message));
        }
        Answer::Dropped(cut) => Report::Dropped(cut),
    };
    Received {
        report,
        held,
        table,
    }
}

// One body through the collector and, when it completes the message, through the reader.
#[tactic(auto, unfolding(crate::specs::Receive::receive_step))]
pub fn receive(
    held: Collection,
    table: Table,
    slots: &mut [u8],
    join: &mut [u8],
    body: &[u8],
) -> Received
    ensures { record { report = told result.report; held = result.held; table = result.table; slots = slots.new; join = join.new } ≡ receive_step held table slots.old join.old body.now }
{
    let outcome = collector::collect(held, slots, join, body);
    take_up(outcome, table, body, join)
}
