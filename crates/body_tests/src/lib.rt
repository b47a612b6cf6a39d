// The tests of a body and of the lent buffers: refusals 1 to 5 (document 01, "Collecting pieces").
//
// One public function, `refuse`: it says by which of tests 1 to 5 a body is refused. It takes any lengths of buffers and any body, and
// writes nothing.
#![tactic(auto)]

ghost use Rattle.std.specs.Prelude.{◌≡◌};
ghost use Rattle.body_tests.specs.Refusals.{body_refusal, refusal_of, refused_by};

use refusals::Refusal;

// The least length of a lent buffer, and the most bytes of a body.
pub const BUFFER_BYTES: usize = 24000;

pub const BODY_BYTES: usize = 1500;

// The first of tests 2 to 5 that the body fails.
#[tactic(auto, using(std::proofs::lemmas::Bool::Decides::nat_tests), unfolding(crate::specs::Refusals::body_refusal, refusals::specs::Refusals::number_of))]
fn refuse_body(body: &[u8]) -> Result<(), Refusal>
    ensures { refused_by result ≡ body_refusal body.now }
{
    if body.len() < 3 {
        return Err(Refusal::ShortBody);
    }
    if BODY_BYTES < body.len() {
        return Err(Refusal::TooLong);
    }
    let n = body[1];
    if n == 0 || 16 < n {
        return Err(Refusal::PieceCount);
    }
    let s = body[2];
    if s == 0 || n < s {
        return Err(Refusal::PieceNumber);
    }
    Ok(())
}

// Whether a body with two buffers of these lengths passes tests 1 to 5, or the first that it fails.
#[tactic(auto, using(std::proofs::lemmas::Bool::Decides::nat_tests), unfolding(crate::specs::Refusals::refusal_of, refusals::specs::Refusals::number_of))]
pub fn refuse(slots: usize, join: usize, body: &[u8]) -> Result<(), Refusal>
    ensures { refused_by result ≡ refusal_of slots join body.now }
{
    if slots < BUFFER_BYTES || join < BUFFER_BYTES {
        return Err(Refusal::ShortBuffer);
    }
    refuse_body(body)
}
