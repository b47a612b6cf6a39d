// A body collected, and the message that it completes lent back (document 01, "Collecting pieces").
//
// One public function, `collect_lent`: `collector::collect`, and the message by `messages::own_part` and `messages::joined_part`, in one
// call, with the body and the join buffer at their own lifetimes.
//
// It takes any record and buffers: where no message is complete, nothing is lent. Nothing is written but what
// `collector::collect` writes.
#![tactic(auto)]

ghost use Rattle.std.specs.Prelude.{◌≡◌};
ghost use Rattle.collector.specs.Answers.{said};
ghost use Rattle.wire.specs.Parts.{part};
ghost use Rattle.lending.specs.Lent.{lent_at};

use collection::Collection;
use collector::Outcome;
use messages::{joined_part, own_part};

// The outcome with the message lent at two lifetimes: as a part of the body where it came in one piece,
// else as a part of the join buffer; the other is empty, and both are where none is complete. The join buffer
// is lent back whole beside it, since the message's borrow spends the caller's: while that lives every byte is said, and what
// the buffer holds afterwards is not.
// Kept: two slices with their own lifetimes, the form that document 01 names.
#[derive(Clone, Copy)]
pub struct Lent<'b, 'j> {
    pub outcome: Outcome,
    pub own: &'b [u8],
    pub joined: &'j [u8],
    pub join: &'j [u8],
}

// `collect`, with the message lent back.
pub fn collect_lent<'b, 'j, 's>(
    held: Collection,
    slots: &'s mut [u8],
    join: &'j mut [u8],
    body: &'b [u8],
) -> Lent<'b, 'j>
    ensures { record { after = record { answer = said result.outcome.answer; held = result.outcome.held; slots = slots.new; own = result.own.now; joined = result.joined.now; join = result.join.now }; own = result.own.ref_ptr; joined = result.joined.ref_ptr; join = result.join.ref_ptr } ≡ lent_at held slots.old (part join.entry.ref_ptr join.old) (part body.entry.ref_ptr body.now) }
{
    let outcome = collector::collect(held, slots, &mut *join, body);
    let join: &'j [u8] = join;
    let joined = joined_part(outcome, join);
    Lent {
        outcome,
        own: own_part(outcome, body),
        joined,
        join,
    }
}
