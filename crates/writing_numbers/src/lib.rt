// A number as an element of a row, at a place of a buffer (document 02, Req 01).
//
// `put_number` and `has_room`, by which every writer of an element asks for room, take any input. Where the element has no room nothing is
// written and the answer is the place that was given; else just the element is written, and the answer is the place behind it.
// `put_element` does the same of an element whose value is written by a function that is passed in. `put_each` writes an element for each
// entry of a list by such a function, and asks that there is room for all.
// Kept: a buffer and a place are passed, and the place behind is answered: the equations `put` and `put_within` of the public writers are of these.
#![tactic(auto)]

ghost use Rattle.std.specs.Prelude.{◌≡◌, ℕ, ◌+◌, ◌*◌, ◌<◌, ◌≤◌, List, length, leb};
ghost use Rattle.texts.specs.Put.{put};
ghost use Rattle.texts.specs.Text.{each};
ghost use Rattle.texts.specs.Writing.{Wrote, Lined};
ghost use Rattle.writing_elements.specs.Encode.{big_endian, element};
ghost use Rattle.writing_numbers.specs.Within.{Puts, put_within};

// Whether a buffer of so many bytes has `most` of them from `at` on.
pub fn has_room(bytes: usize, at: usize, most: usize) -> bool
    ensures { result ≡ leb (at + most) bytes }
{
    if bytes < most {
        return false;
    }
    at <= bytes - most
}

// Writes an element that has room. Its number goes from the last byte to the first.
fn store_number(kind: u8, width: u8, n: u64, out: &mut [u8], at: usize) -> usize
    requires { at + 2 + width ≤ length out.old }
    ensures { Wrote out.old at (element kind (big_endian width n)) out.new result }
{
    out[at] = kind;
    out[at + 1] = width;
    let mut rest = n;
    for k in (0..width as usize).rev() {
        out[at + 2 + k] = (rest % 256) as u8;
        rest /= 256;
    }
    at + 2 + width as usize
}

// Writes an element whose value is the last `width` bytes of a number, the greatest first.
pub fn put_number(kind: u8, width: u8, n: u64, out: &mut [u8], at: usize) -> usize
    ensures { record { next = result; out = out.new } ≡ put (element kind (big_endian width n)) out.old at }
{
    if !has_room(out.len(), at, width as usize + 2) {
        return at;
    }
    store_number(kind, width, n, out, at)
}

// Writes an element for each entry of a list, one behind the other: `put` writes that of one, of at most MOST bytes.
pub fn put_each<const MOST: usize, T: Copy, F: Fn(T, &mut [u8], usize) -> usize>(
    entries: &[T],
    put: F,
    out: &mut [u8],
    at: usize,
) -> usize
    ghost line: { T → List ℕ }
    requires each { Puts MOST line (F.pre put) (F.post put) }
    requires room { at + MOST * length entries.now ≤ length out.old }
    ensures { Lined (MOST * length entries.now) out.old at (each line entries.now) out.new result }
{
    let mut next = at;
    for entry in entries {
        next = put(*entry, out, next);
    }
    next
}

// Writes an entry as an element, whose value has at most MOST bytes: the value, by the function that is passed in, then the head ahead of it.
pub fn put_element<const MOST: usize, T: Copy, F: Fn(T, &mut [u8], usize) -> usize>(
    kind: u8,
    entry: T,
    put: F,
    out: &mut [u8],
    at: usize,
) -> usize
    ghost line: { T → List ℕ }
    requires small { MOST < 256 }
    requires each { Puts MOST line (F.pre put) (F.post put) }
    ensures { record { next = result; out = out.new } ≡ put_within (2 + MOST) (element kind (line entry)) out.old at }
{
    if !has_room(out.len(), at, 2 + MOST) {
        return at;
    }
    let next = put(entry, out, at + 2);
    out[at] = kind;
    out[at + 1] = (next - at - 2) as u8;
    next
}
