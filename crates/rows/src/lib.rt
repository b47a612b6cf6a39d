// Tests one top-level element of a message and everything in it: refusals 6 to 13 of document 01, and where.
//
// Two public functions. `test_element` takes any message, any place and any tally: a refusal is an answer.
// It takes nothing up and writes nothing. `empty_tally` is the tally to begin with.
//
// The element reader calls the row reader for a value that is a row, and the row reader calls it back for
// each child; the bytes left fall at each call. The row reader is a loop, so the calls are only as deep as
// rows stand in rows: by the table at most `row_from` for 23 and again for 23.9, or for 50 and 50.4, whatever
// the length of the message.
#![tactic(auto)]

ghost use Rattle.std.specs.Prelude.{◌≡◌, ◌+◌, ◌≤◌, ◌<◌, length};
ghost use Rattle.elements.specs.Elements.{Value, head_at};
ghost use Rattle.rows.specs.Tests.{is_row, row_end, none_counted, empty_tally};
ghost use Rattle.rows.specs.Rows.{element_of, row_of, noted, tested_at};
ghost use Rattle.rows.specs.Told.{fault_of, fault_in, tested_of};

use refusals::{Fault, Refusal};
use types::Length;

// How many elements of each list stand before this one in its row. A type's list has a number in its row.
#[derive(Clone, Copy)]
pub struct Tally {
    pub counts: [u8; 8],
}

// What stands after a top-level element: the place of the next, and the tally.
#[derive(Clone, Copy)]
pub struct Next {
    pub place: usize,
    pub tally: Tally,
}

// A top-level element that is refused, and what stands after it all the same: of a refused head the place is its own.
#[derive(Clone, Copy)]
pub struct Stopped {
    pub fault: Fault,
    pub next: Next,
}

// The refusal alone, which a caller's `?` takes.
impl From<Stopped> for Fault {
    ghost from_gives = { λ stopped fault. fault ≡ stopped.fault };

    fn from(stopped: Stopped) -> Fault {
        stopped.fault
    }
}

// Whether the value is a row of elements.
fn is_row(allowed: Length) -> bool
    ensures { result ≡ is_row allowed }
{
    matches!(allowed, Length::Row)
}

// The tally of a row that begins.
pub fn empty_tally() -> Tally
    ensures { result ≡ empty_tally }
{
    Tally { counts: [0u8; 8] }
}

// The end of a row: test 13, at the row's own type byte.
fn row_end(parent: usize, own: usize, counts: &[u8; 8]) -> Result<(), Fault>
    ensures { fault_of own result ≡ row_end parent own counts.now }
{
    if musts::lacks_must(parent, counts) {
        return Err(Fault {
            refusal: Refusal::MissingElement,
            offset: own,
        });
    }
    Ok(())
}

// The element reader. The element at `at` in the row `parent`, with a value of `len` bytes, after those that
// `counts` counts: where it is listed, its own tests, and where its value is a row, that row; then it is counted.
#[cycle(element_row_from)]
fn element(
    message: &[u8],
    parent: usize,
    at: usize,
    len: usize,
    counts: &mut [u8; 8],
) -> Result<(), Fault>
    requires { at + 2 + len ≤ length message.now }
    ensures fault { fault_of at result ≡ fault_in (element_of message.now parent at len counts.old) }
    ensures counted { counts.new ≡ noted counts.old (element_of message.now parent at len counts.old) }
{
    let Some(known) = types::find_type(parent, message[at]) else {
        return Ok(());
    };
    let list = known.list;
    let count = match element_tests::own_tests(message, known, at, len, counts[list]) {
        Ok(count) => count,
        Err(refusal) => {
            return Err(Fault {
                refusal,
                offset: at,
            });
        }
    };
    if is_row(known.length) {
        row_from(message, known.place, at, at + 2, at + 2 + len)?;
    }
    counts[list] = count;
    Ok(())
}

// The row reader. The row `parent`, whose own type byte is at `own`, from `from` to `end`.
#[cycle(element_row_from)]
fn row_from(message: &[u8], parent: usize, own: usize, from: usize, end: usize) -> Result<(), Fault>
    ensures { fault_of own result ≡ row_of message.now parent own from end none_counted }
{
    let mut at = from;
    let mut counts = [0u8; 8];
    // Kept: a walk of its own and no `Children`, which only ends where a head is refused: this one answers the refusal.
    loop {
        match elements::read_head(message, at, end) {
            Ok(None) => {
                return row_end(parent, own, &counts);
            }
            Err(refusal) => {
                return Err(Fault {
                    refusal,
                    offset: at,
                });
            }
            Ok(Some(len)) => {
                if let Err(fault) = element(message, parent, at, len, &mut counts) {
                    return Err(fault);
                }
                at = at + 2 + len;
            }
        }
    }
}

// `test_element` for a listed element whose head is whole, with a value of `len` bytes. It is a function of its own, since a function
// sets what it holds to 0 at its start, and an element that is not listed needs none of this.
fn test_whole(message: &[u8], at: usize, len: usize, tally: Tally) -> Result<Next, Stopped>
    requires { Value len ≡ head_at message.now at (length message.now) }
    ensures { tested_of at result ≡ tested_at message.now at tally }
{
    let place = at + 2 + len;
    let mut after = tally;
    if let Err(fault) = element(message, types::TOP_LEVEL, at, len, &mut after.counts) {
        let next = Next {
            place,
            tally: after,
        };
        return Err(Stopped { fault, next });
    }
    Ok(Next {
        place,
        tally: after,
    })
}

// The top-level element at `at`, after those that `tally` counts: the first refusal of 6 to 13 in it, or none; and what stands
// after it. Past the last element nothing is refused and nothing changes. An element that is not listed costs no call.
pub fn test_element(message: &[u8], at: usize, tally: Tally) -> Result<Next, Stopped>
    ensures { tested_of at result ≡ tested_at message.now at tally }
{
    match elements::read_head(message, at, message.len()) {
        Ok(None) => Ok(Next { place: at, tally }),
        Err(refusal) => Err(Stopped {
            fault: Fault {
                refusal,
                offset: at,
            },
            next: Next { place: at, tally },
        }),
        Ok(Some(len)) => {
            if types::find_type(types::TOP_LEVEL, message[at]).is_some() {
                return test_whole(message, at, len, tally);
            }
            Ok(Next {
                place: at + 2 + len,
                tally,
            })
        }
    }
}
