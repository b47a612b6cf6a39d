// Choices and verdicts as numbers: the rule for a client, a frame judged, a tunnel prepared, for a table by value; a frame judged by a lent tunnel.
//
// `choose_value`, `judge_value`, `prepare_value` and `judge_parts`. A client is a kind and a value; a UCID counts where its mark
// is not 0. They take any table, any numbers and any frame. The payload is told by its place in the frame.
// Kept: kind, value, known and ucid side by side, as the functions that C calls have them (`dsg_choose`, `dsg_judge`, `dsg_prepare`).
#![tactic(auto)]

ghost use Rattle.std.specs.Prelude.{◌≡◌, length};
ghost use Rattle.choice.specs.Chose.{chose};
ghost use Rattle.payloads.specs.Judged.{judged};
ghost use Rattle.tunnel_parts.specs.Prepared.{prepared_verdict};
ghost use Rattle.preparing.specs.Preparing.{prepared_tunnel};
ghost use Rattle.dsg_frames.specs.Frames.{client_of, ucid_of, choice_as, choice_for, verdict_as, verdict_for};

use refusals::Refusal;
use table::{Client, Table};
use tunnel_parts::Tunnel;

// What a choice is answered: number 0 and the rule's place in the table, or the refusal.
// Kept: a number with a place beside it, since C is given this record (`struct dsg_choice` of include/dsg.h): its fields, order and types stay.
#[repr(C)]
#[derive(Clone, Copy)]
pub struct Choice {
    pub number: u32,
    pub place: usize,
}

// What a frame is answered. Kind 0: refused, `number` says why. 1: of another tunnel. 2: forwarded, by the
// classifier `number` or by none; the payload is `length` bytes from `start`. 3: filtered.
// Kept: a kind as a number with its values beside it, since C is given this record (`struct dsg_verdict`): its fields, order and types stay.
#[repr(C)]
#[derive(Clone, Copy)]
pub struct Verdict {
    pub kind: u32,
    pub number: u32,
    pub start: usize,
    pub length: usize,
}

// The UCID that a mark and a number give.
fn ucid_from(known: u8, ucid: u8) -> Option<u8>
    ensures { result ≡ ucid_of known ucid }
{
    (known != 0).then_some(ucid)
}

// The numbers of a choice.
#[tactic(auto, unfolding(choice::specs::Chose::chose))]
fn choice_from(choice: Result<usize, Refusal>) -> Choice
    ensures { result ≡ choice_as (chose choice) }
{
    match choice {
        Ok(place) => Choice { number: 0, place },
        Err(refusal) => Choice {
            number: u32::from(refusal.number()),
            place: 0,
        },
    }
}

// The rule for a client, in a table by value.
pub fn choose_value(table: Table, kind: u8, value: u64, known: u8, ucid: u8) -> Choice
    ensures { result ≡ choice_for table kind value known ucid }
{
    let client = Client { kind, value };
    let upstream = ucid_from(known, ucid);
    choice_from(choice::choose_rule(table, client, upstream))
}

// The numbers of a verdict on a frame of so many bytes.
#[tactic(auto, using(payloads::proofs::Lent::payload_range_lies), unfolding(payloads::specs::Judged::judged))]
fn verdict_from(verdict: payloads::Verdict, length: usize) -> Verdict
    ensures { result ≡ verdict_as (judged verdict) length }
{
    let nothing = Verdict {
        kind: 0,
        number: 0,
        start: 0,
        length: 0,
    };
    match verdict {
        payloads::Verdict::Refused(number) => Verdict {
            number: u32::from(number),
            ..nothing
        },
        payloads::Verdict::Other => Verdict { kind: 1, ..nothing },
        payloads::Verdict::Forward(number) => {
            let range = payloads::payload_range(verdict, length);
            Verdict {
                kind: 2,
                number: u32::from(number),
                start: range.start,
                length: range.end - range.start,
            }
        }
        payloads::Verdict::Filtered => Verdict { kind: 3, ..nothing },
    }
}

// The verdict on a frame, by a table by value.
pub fn judge_value(table: Table, kind: u8, value: u64, known: u8, ucid: u8, frame: &[u8]) -> Verdict
    ensures { result ≡ verdict_for table kind value known ucid frame.now }
{
    let client = Client { kind, value };
    let upstream = ucid_from(known, ucid);
    let verdict = tunnel::judge_frame(table, client, upstream, frame);
    verdict_from(verdict, frame.len())
}

// The tunnel of a client, from a table by value.
pub fn prepare_value(table: Table, kind: u8, value: u64, known: u8, ucid: u8) -> Tunnel
    ensures { result ≡ prepared_tunnel table (client_of kind value) (ucid_of known ucid) }
{
    let client = Client { kind, value };
    let upstream = ucid_from(known, ucid);
    preparing::prepare_tunnel(table, client, upstream)
}

// The verdict on a frame, by a prepared tunnel that is lent.
pub fn judge_parts(tunnel: &Tunnel, frame: &[u8]) -> Verdict
    ensures { result ≡ verdict_as (prepared_verdict tunnel.now frame.now) (length frame.now) }
{
    verdict_from(tunnel_parts::judge_lent(tunnel, frame), frame.len())
}
