// The listing of one body by itself: what `dcdlist` writes.
//
// One public function, `list_body`. It takes any body and any buffer; a buffer under `notices::LISTING_BYTES` is refused and
// stays as it was. It needs some 141,000 bytes of stack: two buffers of 24,000, and a table that goes by value from call to call.
#![tactic(auto)]

ghost use Rattle.std.specs.Prelude.{◌≡◌, get_or};
ghost use Rattle.receiver.specs.Receive.{told};
ghost use Rattle.notices.specs.Listing.{written, listing};
ghost use Rattle.bodies.specs.Body.{zeros, received, report_text, body_text};

use receiver::{Received, Report};
use refusals::Refusal;
use table::Table;

// A buffer of 24,000 bytes, all 0.
fn zero_buffer() -> [u8; 24000]
    ensures { result ≡ zeros }
{
    [0u8; 24000]
}

// The change count of a body, 0 where it has none.
fn count_of(body: &[u8]) -> u8
    ensures { result ≡ get_or body.now 0 0 }
{
    body.first().copied().unwrap_or(0)
}

// What a body leaves where nothing is collected.
fn receive_alone(body: &[u8]) -> Received
    ensures { (told result.report ≡ (received body.now).report) × (result.table ≡ (received body.now).table) }
{
    let mut slots = zero_buffer();
    let mut join = zero_buffer();
    let held = collection::empty_collection(0);
    let table = table::empty_table();
    receiver::receive(held, table, &mut slots, &mut join, body)
}

// The listing of a report.
#[tactic(auto, unfolding(crate::specs::Body::report_text))]
fn list_report(report: Report, count: u8, table: Table, out: &mut [u8]) -> Result<usize, Refusal>
    ensures { record { answer = written result; out = out.new } ≡ listing (report_text (told report) count table) out.old }
{
    match report {
        Report::BodyRefused(number) => notices::list_refusal(number, 0, out),
        Report::Repeat => notices::list_waiting(0, out),
        Report::Waiting(empty) => notices::list_waiting(empty, out),
        Report::Accepted => listing::list_table(count, table, out),
        Report::MessageRefused(fault) => {
            notices::list_refusal(fault.refusal.number(), fault.offset, out)
        }
        Report::Dropped(cut) => notices::list_refusal(21, cut, out),
    }
}

// The listing of a body.
pub fn list_body(body: &[u8], out: &mut [u8]) -> Result<usize, Refusal>
    ensures { record { answer = written result; out = out.new } ≡ listing (body_text body.now) out.old }
{
    let left = receive_alone(body);
    let report = left.report;
    let table = left.table;
    list_report(report, count_of(body), table, out)
}
