// A table as text in a lent buffer (document 01, "Listing").
//
// One public function, `list_table`. It takes any table, any change count
// and any buffer: one under LISTING_BYTES is refused by `Refusal::ShortListing` and stays as it was. It writes the text at the
// buffer's start, leaves every byte behind it as it was, and answers the text's length.
#![tactic(auto)]

mod lines;

ghost use Rattle.std.specs.Prelude.{◌≡◌};
ghost use Rattle.notices.specs.Listing.{written, listing};
ghost use Rattle.listing.specs.Text.{table_text};

use lines::{put_channels, put_classifiers, put_rules, put_sizes, put_timers};
use notices::LISTING_BYTES;
use refusals::Refusal;
use table::Table;
use texts::Writer;

// The listing of a table and the change count that it came under.
pub fn list_table(count: u8, table: Table, out: &mut [u8]) -> Result<usize, Refusal>
    ensures { record { answer = written result; out = out.new } ≡ listing (table_text count table) out.old }
{
    if out.len() < LISTING_BYTES {
        return Err(Refusal::ShortListing);
    }
    let mut w = Writer { out, at: 0 };
    put_sizes(count, table, &mut w);
    put_rules(table, &mut w);
    put_classifiers(table, &mut w);
    put_channels(table, &mut w);
    put_timers(table.timers, &mut w);
    Ok(w.at)
}
