// How a piece stands to what is held (document 01, "Collecting pieces").
//
// One public function, `relate`: the piece goes on with the collection that a record holds, repeats one that its slot has, or begins
// anew. It takes any record, buffer, numbers and piece and refuses nothing: a slot beyond the sixteenth is empty, and what a slot has is
// cut where the slot buffer ends. It writes nothing.
#![tactic(auto)]

ghost use Rattle.std.specs.Prelude.{◌≡◌};
ghost use Rattle.relation.specs.Relation.{relation_to, related};

use collection::Collection;

// How a piece stands to what is held.
#[derive(Clone, Copy, PartialEq, Eq)]
pub enum Relation {
    // Its message is held, and its slot is empty.
    GoesOn,
    // Its message is held, and its slot has these bytes.
    Repeats,
    // Another message is held, or none, or its slot has other bytes.
    Anew,
}

// How a piece for slot `k`, of a message of this count and number, stands to what is held.
#[tactic(auto, using(std::proofs::lemmas::Bool::Decides::nat_tests), unfolding(crate::specs::Relation::relation_to, joining::specs::Pieces::piece_at))]
pub fn relate(
    held: Collection,
    slots: &[u8],
    count: u8,
    number: u8,
    k: usize,
    piece: &[u8],
) -> Relation
    ensures { related result ≡ relation_to held slots.now count number k piece.now }
{
    if !held::is_of(held, count, number) {
        return Relation::Anew;
    }
    if joining::SLOTS <= k || held.filled[k] != 1 {
        return Relation::GoesOn;
    }
    if compare::same_bytes(joining::piece_in(slots, k, held.lengths[k]), piece) {
        return Relation::Repeats;
    }
    Relation::Anew
}
