// The pieces of a message as the bodies of a DCD, at their places of the output buffer (document 02, Req 01).
//
// One public function, `lay_all`. It takes any lengths, any message and any buffer and refuses nothing: a piece ends where the message ends, and a
// body that does not fit at its step is not laid. It writes only where a body goes.
#![tactic(auto)]

ghost use Rattle.std.specs.Prelude.{◌≡◌, ◌≤◌, [], ◌∷◌, take};
ghost use Rattle.table.specs.Table.{limited_to};
ghost use Rattle.writing_bodies.specs.Bodies.{laid, cut_by};

// The bytes from one body's place to the next.
const STEP_BYTES: usize = 1500;

// Change count, number of pieces, sequence number.
const HEAD_BYTES: usize = 3;

// The most bodies that are laid.
const BODIES: usize = 16;

// One body, where it has room: its head, then its piece.
fn lay_one(count: u8, number: u8, k: usize, piece: &[u8], out: &mut [u8])
    requires { k ≤ 15 }
    ensures { out.new ≡ laid count number k (piece.now ∷ []) out.old }
{
    let at = k * STEP_BYTES;
    if out.len() < at + HEAD_BYTES {
        return;
    }
    if out.len() - at - HEAD_BYTES < piece.len() {
        return;
    }
    out[at] = count;
    out[at + 1] = number;
    out[at + 2] = (k as u8) + 1;
    wire::copy_at(out, at + HEAD_BYTES, piece);
}

// A length, or what is left where that is less.
fn shorter(length: u16, left: usize) -> usize
    ensures { result ≡ limited_to left length }
{
    left.min(length as usize)
}

// The bodies of all pieces: piece k has `lengths[k]` bytes of the message, behind those of the pieces before it.
pub fn lay_all(count: u8, number: u8, lengths: [u16; 16], message: &[u8], out: &mut [u8])
    ensures { out.new ≡ laid count number 0 (cut_by (take (limited_to 16 number) lengths) message.now) out.old }
{
    let bodies = table::limited(number, BODIES);
    let mut from = 0;
    for (k, length) in lengths[..bodies].iter().enumerate() {
        let end = from + shorter(*length, message.len() - from);
        lay_one(count, number, k, &message[from..end], out);
        from = end;
    }
}
