// Whether two parts have the same bytes.
//
// One public function: `same_bytes`. It takes any two slices and refuses nothing: another length is another part. It writes nothing.
#![tactic(auto)]

ghost use Rattle.std.specs.Prelude.{◌≡◌, ◌+◌, ◌≤◌, length, take, drop};
ghost use Rattle.compare.specs.Compare.{same_bytes};

// The bytes that are compared at one go.
const BLOCK_BYTES: usize = 256;

// Whether a block of both has the same bytes. It looks at every byte, so that the loop has one way out.
fn same_block(a: &[u8], b: &[u8], at: usize) -> bool
    requires { (at + 256 ≤ length a.now) × (length a.now ≡ length b.now) }
    ensures { result ≡ same_bytes (take 256 (drop at a.now)) (take 256 (drop at b.now)) }
{
    let mut apart: u8 = 0;
    for k in 0..BLOCK_BYTES {
        apart |= a[at + k] ^ b[at + k];
    }
    apart == 0
}

// Whether two of one length, a block or more, have the same bytes: block by block, and the last block from the end.
// Kept: `==` takes 1.8 times memcmp for 1,497 bytes, and the blocks 1.5.
fn same_long(a: &[u8], b: &[u8]) -> bool
    requires { (256 ≤ length a.now) × (length a.now ≡ length b.now) }
    ensures { result ≡ same_bytes a.now b.now }
{
    let last = a.len() - BLOCK_BYTES;
    for at in (0..last).step_by(BLOCK_BYTES) {
        if !same_block(a, b, at) {
            return false;
        }
    }
    same_block(a, b, last)
}

// Whether both have the same bytes.
#[tactic(auto, using(crate::proofs::Laws::same_pointwise))]
pub fn same_bytes(a: &[u8], b: &[u8]) -> bool
    ensures { result ≡ same_bytes a.now b.now }
{
    if a.len() < BLOCK_BYTES || a.len() != b.len() {
        return a == b;
    }
    same_long(a, b)
}
