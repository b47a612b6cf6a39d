// Words and numbers as text, at a place of a buffer (document 01, "Listing").
//
// The methods of `Writer`, a lent buffer with the place where the next text goes. `put_byte`, `put_field` and `put_address` take any byte,
// word and number, any buffer and any place: where the text has no room they write nothing and leave the place as it was, else they write
// just the text and go behind it. `put_each` writes a text for each entry of a list by a function that is passed in. It and the private
// functions ask that their text has room.
#![tactic(auto)]

ghost use Rattle.std.specs.Prelude.{◌≡◌, ℕ, List, [], ◌∷◌, ◌+◌, ◌*◌, ◌<◌, ◌≤◌, length, leb};
ghost use Rattle.texts.specs.Text.{digit, decimal, hexadecimal, field, address, each};
ghost use Rattle.texts.specs.Put.{put};
ghost use Rattle.texts.specs.Writing.{Fits, Wrote, Lined, Puts};

// A lent buffer, and the place where the next text goes.
#[derive(Drop)]
pub struct Writer<'a> {
    pub out: &'a mut [u8],
    pub at: usize,
}

// The digits of an address.
const ADDRESS_DIGITS: usize = 12;

// The byte of a digit below 16.
fn glyph(d: u64) -> u8
    requires { d < 16 }
    ensures { result ≡ digit d }
{
    if d < 10 { 48 + d as u8 } else { 87 + d as u8 }
}

// Writes one byte that has room.
fn put_digit(byte: u8, out: &mut [u8], at: usize) -> usize
    requires { Fits out.old at (byte ∷ []) }
    ensures { Wrote out.old at (byte ∷ []) out.new result }
{
    out[at] = byte;
    at + 1
}

// Writes a number in decimal: what stands ahead of its last digit, then that digit.
fn put_decimal(n: u64, out: &mut [u8], at: usize) -> usize
    requires { Fits out.old at (decimal n) }
    ensures { Wrote out.old at (decimal n) out.new result }
{
    if n < 10 {
        return put_digit(glyph(n), out, at);
    }
    let next = put_decimal(n / 10, out, at);
    put_digit(glyph(n % 10), out, next)
}

// Writes the last `width` hexadecimal digits of a number.
// Kept: one function of a base is no plainer: `put_decimal` ends where the number does, this one at a width.
fn put_hexadecimal(width: usize, n: u64, out: &mut [u8], at: usize) -> usize
    requires { Fits out.old at (hexadecimal width n) }
    ensures { Wrote out.old at (hexadecimal width n) out.new result }
{
    if width == 0 {
        return at;
    }
    let next = put_hexadecimal(width - 1, n / 16, out, at);
    put_digit(glyph(n % 16), out, next)
}

// How many digits a number has in decimal.
fn count_digits(n: u64) -> usize
    ensures { result ≡ length (decimal n) }
{
    if n < 10 {
        return 1;
    }
    count_digits(n / 10) + 1
}

// Whether a word and so many digits behind it lie in a buffer of so many bytes, from `at` on.
fn has_room(bytes: usize, at: usize, word: usize, digits: usize) -> bool
    ensures { result ≡ leb (at + (word + digits)) bytes }
{
    at <= bytes && word <= bytes - at && digits <= bytes - at - word
}

impl Writer<'_> {
    // Writes one byte.
    pub fn put_byte(&mut self, byte: u8)
        ensures buffer { self.new.out.ghost_name ≡ self.old.out.ghost_name }
        ensures text { record { next = self.new.at; out = self.new.out.now } ≡ put (byte ∷ []) self.old.out.now self.old.at }
    {
        let out = &mut *self.out;
        if self.at < out.len() {
            out[self.at] = byte;
            self.at += 1;
        }
    }

    // Writes a word and behind it a number in decimal.
    pub fn put_field(&mut self, word: &[u8], n: u64)
        ensures buffer { self.new.out.ghost_name ≡ self.old.out.ghost_name }
        ensures text { record { next = self.new.at; out = self.new.out.now } ≡ put (field word.now n) self.old.out.now self.old.at }
    {
        let out = &mut *self.out;
        let digits = count_digits(n);
        if has_room(out.len(), self.at, word.len(), digits) {
            wire::copy_at(out, self.at, word);
            self.at = put_decimal(n, out, self.at + word.len());
        }
    }

    // Writes a word and behind it the last twelve hexadecimal digits of a number.
    pub fn put_address(&mut self, word: &[u8], n: u64)
        ensures buffer { self.new.out.ghost_name ≡ self.old.out.ghost_name }
        ensures text { record { next = self.new.at; out = self.new.out.now } ≡ put (address word.now n) self.old.out.now self.old.at }
    {
        let out = &mut *self.out;
        if has_room(out.len(), self.at, word.len(), ADDRESS_DIGITS) {
            wire::copy_at(out, self.at, word);
            self.at = put_hexadecimal(ADDRESS_DIGITS, n, out, self.at + word.len());
        }
    }

    // Writes a text for each entry of a list, one behind the other: `put` writes that of one, of at most MOST bytes.
    pub fn put_each<const MOST: usize, T: Copy, F: Fn(T, &mut Writer<'_>)>(
        &mut self,
        items: &[T],
        put: F,
    )
        ghost line: { T → List ℕ }
        requires each { Puts MOST line (F.pre put) (F.post put) }
        requires room { self.old.at + MOST * length items.now ≤ length self.old.out.now }
        ensures buffer { self.new.out.ghost_name ≡ self.old.out.ghost_name }
        ensures text { Lined (MOST * length items.now) self.old.out.now self.old.at (each line items.now) self.new.out.now self.new.at }
    {
        for item in items {
            put(*item, self);
        }
    }
}
