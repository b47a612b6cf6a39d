// A table written as the bodies of a DCD in a lent buffer (document 02, Req 01).
//
// One public function, `write_table`. It takes any change count, any table and any buffer. A table that reading cannot produce is refused by
// `Refusal::CannotProduce`, then a buffer that is too short for the bodies by `Refusal::ShortOutput`; after either the buffer is as it was. Else
// it writes just the bodies, and answers their number and their lengths.
#![tactic(auto)]

ghost use Rattle.std.specs.Prelude.{◌≡◌, map, ℕ, ◌+◌, ◌≤◌, ◌<◌, get_or, take};
ghost use Rattle.table.specs.Table.{padded};
ghost use Rattle.writing_table.specs.Writing.{as_written, writing};

use refusals::Refusal;
use table::Table;

// The bytes from one body's place to the next.
const STEP_BYTES: usize = 1500;

// The bytes of a body ahead of its piece.
const HEAD_BYTES: u16 = 3;

// What was written: how many bodies there are, and their lengths, 0 behind the last.
// Kept: an array with its count beside, since there is no heap and C is answered just these.
#[derive(Clone, Copy)]
pub struct Written {
    pub number: u8,
    pub lengths: [u16; 16],
}

// The lengths of the bodies: each of the first pieces with its head, 0 behind them.
fn body_lengths(number: usize, pieces: [u16; 16]) -> [u16; 16]
    requires { (number ≤ 16) × ((k : ℕ) → k < number → get_or pieces k 0 ≤ 1497) }
    ensures { result ≡ padded 16 0 (map (λ n. n + 3) (take number pieces)) }
{
    let mut lengths = [0u16; 16];
    for k in 0..number {
        lengths[k] = pieces[k] + HEAD_BYTES;
    }
    lengths
}

// The bodies of a table under a change count. The message stands in an array of its own until its bodies are known to fit.
pub fn write_table(count: u8, table: Table, out: &mut [u8]) -> Result<Written, Refusal>
    ensures { record { answer = as_written result; out = out.new } ≡ writing count table out.old }
{
    if !writing_check::is_producible(table) {
        return Err(Refusal::CannotProduce);
    }
    let mut held = [0u8; 5632];
    let message = writing_message::put_message(table, &mut held);
    let n = message.length;
    let cut = message.cut;
    let closed = cut.closed;
    let last = cut.now;
    let at = closed as usize;
    if out.len() < at * STEP_BYTES + (HEAD_BYTES as usize) + (last as usize) {
        return Err(Refusal::ShortOutput);
    }
    let number = closed + 1;
    let mut pieces = cut.lengths;
    pieces[at] = last;
    writing_bodies::lay_all(count, number, pieces, &held[..n], out);
    let lengths = body_lengths(at + 1, pieces);
    Ok(Written { number, lengths })
}
