// The pieces in the slot buffer: one of them, and several joined (document 01, "Collecting pieces").
//
// Two public functions. `piece_in` lends the piece in a slot, `join_pieces` joins those of the first slots. They take any buffers, lengths
// and numbers and refuse nothing: a piece is cut where the slot buffer ends, there are sixteen slots for any greater number, and a piece
// that does not fit leaves the join buffer as it was. Only where pieces go is the join buffer written.
#![tactic(auto)]

ghost use Rattle.std.specs.Prelude.{◌≡◌};
ghost use Rattle.wire.specs.Parts.{part};
ghost use Rattle.joining.specs.Pieces.{part_in, join_step};

// The bytes of a slot, and how many slots there are.
pub const SLOT_BYTES: usize = 1500;

pub const SLOTS: usize = 16;

// The piece of `len` bytes in slot `k`.
pub fn piece_in<'s>(slots: &'s [u8], k: usize, len: u16) -> &'s [u8]
    ensures { part result.ref_ptr result.now ≡ part_in (part slots.entry.ref_ptr slots.now) k len }
{
    let begin = k.saturating_mul(SLOT_BYTES).min(slots.len());
    let rest = &slots[begin..];
    &rest[..rest.len().min(len as usize)]
}

// Joins the pieces of the first `n` slots at the start of the join buffer; answers their length.
pub fn join_pieces(slots: &[u8], join: &mut [u8], lengths: [u16; 16], n: usize) -> usize
    ensures { record { size = result; join = join.new } ≡ join_step slots.now join.old lengths n }
{
    let mut at = 0;
    for k in 0..n.min(SLOTS) {
        let piece = piece_in(slots, k, lengths[k]);
        wire::copy_at(join, at, piece);
        at += piece.len();
    }
    at
}
