// A refusal or an unfinished collection as text in a lent buffer (document 01, "Listing").
//
// Two public functions, `list_refusal` and `list_waiting`. They take any number
// and any buffer: one under LISTING_BYTES is refused by `Refusal::ShortListing` and stays as it was. They write the text at the
// buffer's start, leave every byte behind it as it was, and answer the text's length.
#![tactic(auto)]

ghost use Rattle.std.specs.Prelude.{◌≡◌, ◌+◌, ◌≤◌, length};
ghost use Rattle.texts.specs.Writing.{Lined};
ghost use Rattle.notices.specs.Text.{refusal_text, waiting_text};
ghost use Rattle.notices.specs.Listing.{written, listing};

use refusals::Refusal;
use texts::Writer;

// The least buffer that is taken: the longest listing of any table (crate listing).
pub const LISTING_BYTES: usize = 3755;

// The line of a refusal.
fn put_refusal(number: u8, offset: usize, w: &mut Writer<'_>)
    requires { w.old.at + 36 ≤ length w.old.out.now }
    ensures buffer { w.new.out.ghost_name ≡ w.old.out.ghost_name }
    ensures text { Lined 36 w.old.out.now w.old.at (refusal_text number offset) w.new.out.now w.new.at }
{
    w.put_field(b"refused ", number as u64);
    w.put_field(b" at ", offset as u64);
    w.put_byte(b'\n');
}

// The line of an unfinished collection.
fn put_waiting(slots: u8, w: &mut Writer<'_>)
    requires { w.old.at + 12 ≤ length w.old.out.now }
    ensures buffer { w.new.out.ghost_name ≡ w.old.out.ghost_name }
    ensures text { Lined 12 w.old.out.now w.old.at (waiting_text slots) w.new.out.now w.new.at }
{
    w.put_field(b"waiting ", slots as u64);
    w.put_byte(b'\n');
}

// The listing of a refusal: its number and offset.
// Kept: a number and no Refusal, since the promise is of every number (`refusal_text`).
pub fn list_refusal(number: u8, offset: usize, out: &mut [u8]) -> Result<usize, Refusal>
    ensures { record { answer = written result; out = out.new } ≡ listing (refusal_text number offset) out.old }
{
    if out.len() < LISTING_BYTES {
        return Err(Refusal::ShortListing);
    }
    let mut w = Writer { out, at: 0 };
    put_refusal(number, offset, &mut w);
    Ok(w.at)
}

// The listing of a collection that waits for so many slots.
pub fn list_waiting(slots: u8, out: &mut [u8]) -> Result<usize, Refusal>
    ensures { record { answer = written result; out = out.new } ≡ listing (waiting_text slots) out.old }
{
    if out.len() < LISTING_BYTES {
        return Err(Refusal::ShortListing);
    }
    let mut w = Writer { out, at: 0 };
    put_waiting(slots, &mut w);
    Ok(w.at)
}
