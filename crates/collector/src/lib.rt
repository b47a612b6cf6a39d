// Collects the pieces of a message (document 01, "Collecting pieces").
//
// One public function, `collect`: it takes a record, the two lent buffers and a body, and answers Refused
// (1 to 5), Repeat, Waiting, Complete, or Dropped (21).
//
// It takes any record and buffers of any length: bad input is an answer, never a duty of the caller,
// and after a refusal 1 to 5 record and buffers are as they were; 21 empties the record but for its setting. The slot
// buffer changes only where a piece is stored, the join buffer only where a message of several pieces is joined.
#![tactic(auto)]

ghost use Rattle.std.specs.Prelude.{◌≡◌, ℕ, ◌≤◌, ◌<◌, length, get_or, take};
ghost use Rattle.body_tests.specs.Refusals.{Fits};
ghost use Rattle.held.specs.Held.{empty_slots};
ghost use Rattle.collector.specs.Answers.{said};
ghost use Rattle.collector.specs.Duties.{Parts, stored_step, held_after};
ghost use Rattle.collector.specs.Step.{settled, finished, collect_step};

use collection::Collection;
use relation::Relation;

// What a body is answered.
#[derive(Clone, Copy)]
pub enum Answer {
    // Not taken: the number of the first test that it fails, 1 to 5.
    // Kept: a number and no Refusal, since `find_message`, `own_part` and `joined_part` of messages promise of every number.
    Refused(u8),
    // Its slot has these bytes already.
    Repeat,
    // Stored; so many slots are empty.
    Waiting(u8),
    // Stored, and none is missing: the length of the message.
    Complete(usize),
    // Stored, and none is missing, but a strict collection was cut inside an element, first at this byte of the
    // message: refusal 21, and nothing is collected.
    Dropped(usize),
}

// The answer, and the record after the call.
#[derive(Clone, Copy)]
pub struct Outcome {
    pub answer: Answer,
    pub held: Collection,
}

// A body that passes the tests, in its parts.
#[derive(Clone, Copy)]
struct Piece<'b> {
    count: u8,
    number: u8,
    slot: usize,
    bytes: &'b [u8],
}

// The parts of a body that passes the tests.
fn read_parts<'b>(body: &'b [u8]) -> Piece<'b>
    requires { Fits body.now }
    ensures { Parts body.now result.count result.number result.slot result.bytes.now }
{
    Piece {
        count: body[0],
        number: body[1],
        slot: body[2] as usize - 1,
        bytes: &body[3..],
    }
}

// How many of the first `n` slots are empty.
// Kept: a sum in place of `filter` and `count`, which takes 154 instructions for sixteen slots where this takes 19.
fn count_empty(filled: [u8; 16], n: usize) -> u8
    requires { n ≤ 16 }
    ensures { result ≡ empty_slots filled n }
{
    let mut empty: u8 = 0;
    for k in 0..n {
        if filled[k] == 0 {
            empty += 1;
        }
    }
    empty
}

// What a message of several pieces comes to, which are joined in the first `size` bytes of the join buffer.
fn settle(next: Collection, join: &[u8], size: usize) -> Answer
    requires { size ≤ length join.now }
    ensures { record { answer = said result; held = held_after (said result) next } ≡ settled next (take size join.now) }
{
    if next.strict == 0 {
        return Answer::Complete(size);
    }
    let lengths = next.lengths;
    let n = next.number as usize;
    match cuts::judge_cuts(&join[..size], lengths, n) {
        None => Answer::Complete(size),
        Some(cut) => Answer::Dropped(cut),
    }
}

// The answer to a piece of `len` bytes that is stored and noted; a message of several pieces is joined.
fn finish(next: Collection, slots: &[u8], join: &mut [u8], len: usize) -> Answer
    requires number_bound { (next.number ≤ 16) × (24000 ≤ length join.old) }
    requires by_index { (k : ℕ) → k < 16 → get_or next.lengths k 0 ≤ 1497 }
    ensures { record { answer = said result; held = held_after (said result) next; slots = slots.now; join = join.new } ≡ finished next slots.now join.old len }
{
    let n = next.number as usize;
    let empty = count_empty(next.filled, n);
    if empty != 0 {
        return Answer::Waiting(empty);
    }
    if n == 1 {
        return Answer::Complete(len);
    }
    let size = joining::join_pieces(slots, join, next.lengths, n);
    settle(next, join, size)
}

// The record that an answer leaves: refusal 21 empties it, but for its setting.
fn leave(answer: Answer, next: Collection) -> Collection
    ensures { result ≡ held_after (said answer) next }
{
    if matches!(answer, Answer::Dropped(_)) {
        return collection::begin(next, 0, 0);
    }
    next
}

// Notes the piece in the record and stores it in its slot; the answer, and the record after it.
fn accept(mut next: Collection, slots: &mut [u8], join: &mut [u8], piece: Piece) -> Outcome
    requires slot { (piece.slot < 16) × (length piece.bytes.now ≤ 1497) }
    requires room { (next.number ≤ 16) × (24000 ≤ length join.old) }
    requires short { (k : ℕ) → k < 16 → get_or next.lengths k 0 ≤ 1497 }
    ensures { record { answer = said result.answer; held = result.held; slots = slots.new; join = join.new } ≡ stored_step next slots.old join.old piece.entry.slot piece.entry.bytes.now }
{
    let len = piece.bytes.len();
    next.filled[piece.slot] = 1;
    next.lengths[piece.slot] = len as u16;
    wire::copy_at(slots, piece.slot * joining::SLOT_BYTES, piece.bytes);
    let answer = finish(next, slots, join, len);
    Outcome {
        answer,
        held: leave(answer, next),
    }
}

// One body: its answer and the record after it; the piece is stored, and a message of several pieces joined.
// Kept: the two buffers are lent one by one, as C lends them to `dsg_collect` (include/dsg.h).
pub fn collect(held: Collection, slots: &mut [u8], join: &mut [u8], body: &[u8]) -> Outcome
    ensures { record { answer = said result.answer; held = result.held; slots = slots.new; join = join.new } ≡ collect_step held slots.old join.old body.now }
{
    if let Err(refusal) = body_tests::refuse(slots.len(), join.len(), body) {
        return Outcome {
            answer: Answer::Refused(refusal.number()),
            held,
        };
    }
    let piece = read_parts(body);
    let begun = match relation::relate(
        held,
        slots,
        piece.count,
        piece.number,
        piece.slot,
        piece.bytes,
    ) {
        Relation::Repeats => {
            return Outcome {
                answer: Answer::Repeat,
                held,
            };
        }
        Relation::GoesOn => held,
        Relation::Anew => collection::begin(held, piece.count, piece.number),
    };
    accept(begun, slots, join, piece)
}
