// A piece copied into a buffer.
//
// One public function: `copy_at`. It takes any slices and any place and refuses nothing: a piece that does not fit leaves its
// target as it was. It writes only where the piece goes.
#![tactic(auto)]

ghost use Rattle.std.specs.Prelude.{◌≡◌};
ghost use Rattle.wire.specs.Bytes.{pasted};

// Copies the piece into the target from `at` on, where it fits.
#[tactic(auto, using(std::proofs::lemmas::Bool::Decides::nat_tests), unfolding(crate::specs::Bytes::pasted))]
pub fn copy_at(target: &mut [u8], at: usize, source: &[u8])
    ensures { target.new ≡ pasted target.old at source.now }
{
    if at <= target.len() && source.len() <= target.len() - at {
        target[at..at + source.len()].copy_from_slice(source);
    }
}
