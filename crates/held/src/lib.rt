// Whether a record holds the collection of a count and number (document 01, "Collecting pieces").
//
// One public function, `is_of`: a record that no calls could have made holds nothing. It takes any record and any numbers, and writes
// nothing.
#![tactic(auto)]

ghost use Rattle.std.specs.Prelude.{◌≡◌, ◌≤◌, ◌<◌, ltb};
ghost use Rattle.held.specs.Held.{empty_slots, most_flag, most_length, slot_sound, sound_to, well_made, is_of};

use collection::Collection;

// The most bytes of a piece.
pub const PIECE_BYTES: u16 = 1497;

// The greatest flag that slot `k` of `n` may have: 31 + n - k is below 64, and 32 or more where `k` is below `n`. A
// compiler does this for sixteen slots at a time, as it does not with a test of `k < n`.
fn most_flag(k: u8, n: u8) -> u8
    requires { (k < 16) × (n ≤ 16) }
    ensures { result ≡ most_flag k n }
{
    (31 + n - k) / 32
}

// The greatest length that a slot with this flag may have.
fn most_length(flag: u8) -> u16
    ensures { result ≡ most_length flag }
{
    if flag == 1 { PIECE_BYTES } else { 0 }
}

// Whether slot `k` of `n` is as calls leave it.
fn slot_sound(flag: u8, len: u16, k: u8, n: u8) -> bool
    requires { (k < 16) × (n ≤ 16) }
    ensures { result ≡ slot_sound flag len k n }
{
    flag <= most_flag(k, n) && len <= most_length(flag)
}

// Whether all sixteen slots are.
#[tactic(auto, unfolding(crate::specs::Held::sound_to))]
fn all_sound(filled: [u8; 16], lengths: [u16; 16], n: u8) -> bool
    requires { n ≤ 16 }
    ensures { result ≡ sound_to filled lengths n 16 }
{
    let mut sound = true;
    for k in 0..16 {
        sound &= slot_sound(filled[k], lengths[k], k as u8, n);
    }
    sound
}

// Whether a slot is filled. It looks at all sixteen, as `all_sound` does.
// Kept: `any` takes `is_of` from 4.9 ns to 7.2, `some |= ..` from 4.3 to 4.9.
#[tactic(auto, using(crate::proofs::Laws::some_more))]
fn any_filled(filled: [u8; 16]) -> bool
    ensures { result ≡ ltb (empty_slots filled 16) 16 }
{
    let mut some = false;
    for k in 0..16 {
        if filled[k] != 0 {
            some = true;
        }
    }
    some
}

// Whether something is collected, and calls could have made the record.
#[tactic(auto, using(std::proofs::lemmas::Bool::Decides::nat_tests), unfolding(crate::specs::Held::well_made))]
fn well_made(held: Collection) -> bool
    ensures { result ≡ well_made held }
{
    held.number <= 16
        && all_sound(held.filled, held.lengths, held.number)
        && any_filled(held.filled)
}

// Whether the held collection is the one of this count and number.
#[tactic(auto, using(std::proofs::lemmas::Bool::Decides::nat_tests), unfolding(crate::specs::Held::is_of))]
pub fn is_of(held: Collection, count: u8, number: u8) -> bool
    ensures { result ≡ is_of held count number }
{
    well_made(held) && held.count == count && held.number == number
}
