// Big-endian numbers out of bytes.
//
// Four public functions: `number1`, `number2`, `number4` and `number6`. They take any slice and any place, and write
// nothing: a byte beyond the end counts as 0.
#![tactic(auto)]

ghost use Rattle.std.specs.Prelude.{◌≡◌, ◌+◌, ◌-◌, ◌^◌, ◌≤◌, ◌<◌, length, get_or};
ghost use Rattle.numbers.specs.Numbers.{number_at};

// How many of `len` bytes stand at or behind the place `at`.
fn left_at(len: usize, at: usize) -> usize
    ensures { result ≡ len - at }
{
    if at < len { len - at } else { 0 }
}

// The byte `k` places behind `at`, or 0 beyond the end.
fn byte_after(bytes: &[u8], at: usize, k: usize) -> u8
    ensures { result ≡ get_or bytes.now (at + k) 0 }
{
    if k < left_at(bytes.len(), at) {
        return bytes[at + k];
    }
    0
}

// The number of `width` bytes from `at`, some of which may be beyond the end.
fn number_short(bytes: &[u8], at: usize, width: usize) -> u64
    requires { width ≤ 6 }
    ensures { (result ≡ number_at width bytes.now at) × (result < 256 ^ width) }
{
    let mut n: u64 = 0;
    for k in 0..width {
        n = n * 256 + u64::from(byte_after(bytes, at, k));
    }
    n
}

// The number of two bytes that are there.
fn pair(bytes: &[u8], at: usize) -> u16
    requires { at + 2 ≤ length bytes.now }
    ensures { result ≡ number_at 2 bytes.now at }
{
    (bytes[at] as u16) * 256 + (bytes[at + 1] as u16)
}

// The number of four bytes that are there.
fn four(bytes: &[u8], at: usize) -> u32
    requires { at + 4 ≤ length bytes.now }
    ensures { result ≡ number_at 4 bytes.now at }
{
    (pair(bytes, at) as u32) * 65536 + (pair(bytes, at + 2) as u32)
}

// The number of the one byte at `at`.
pub fn number1(bytes: &[u8], at: usize) -> u8
    ensures { result ≡ number_at 1 bytes.now at }
{
    if at < bytes.len() {
        return bytes[at];
    }
    0
}

// The number of the two bytes from `at`.
pub fn number2(bytes: &[u8], at: usize) -> u16
    ensures { result ≡ number_at 2 bytes.now at }
{
    if left_at(bytes.len(), at) < 2 {
        return number_short(bytes, at, 2) as u16;
    }
    pair(bytes, at)
}

// The number of the four bytes from `at`.
pub fn number4(bytes: &[u8], at: usize) -> u32
    ensures { result ≡ number_at 4 bytes.now at }
{
    if left_at(bytes.len(), at) < 4 {
        return number_short(bytes, at, 4) as u32;
    }
    four(bytes, at)
}

// The number of the six bytes from `at`.
pub fn number6(bytes: &[u8], at: usize) -> u64
    ensures { result ≡ number_at 6 bytes.now at }
{
    if left_at(bytes.len(), at) < 6 {
        return number_short(bytes, at, 6);
    }
    (four(bytes, at) as u64) * 65536 + (pair(bytes, at + 4) as u64)
}
