// The answers of reading, listing and writing as numbers: a message read into a table by value, a table or a body listed, a table
// written as bodies.
//
// `read_value`, `list_value`, `list_body_value` and `write_value`. They take any table, count, bytes and buffer, and answer what the
// reader, the listing and the writer answer, as structs of numbers.
#![tactic(auto)]

ghost use Rattle.std.specs.Prelude.{◌≡◌};
ghost use Rattle.notices.specs.Listing.{written};
ghost use Rattle.reader.specs.Shown.{passed};
ghost use Rattle.dsg_tables.specs.Tables.{read_answer, read_stepped, listed_as, list_after, body_after, write_after};

use refusals::{Fault, Refusal};
use table::Table;

// What a message is answered: number 0, or the refusal and the offset that it concerns.
// Kept: C is answered it (`struct dsg_read_answer` of include/dsg.h), fields, order and types.
#[repr(C)]
#[derive(Clone, Copy)]
pub struct ReadAnswer {
    pub number: u32,
    pub offset: usize,
}

// An answer, and the table after it.
#[derive(Clone, Copy)]
pub struct ReadStepped {
    pub answer: ReadAnswer,
    pub table: Table,
}

// The numbers of a verdict on a message.
fn answer_from(verdict: Result<(), Fault>) -> ReadAnswer
    ensures { result ≡ read_answer (passed verdict) }
{
    match verdict {
        Ok(()) => ReadAnswer {
            number: 0,
            offset: 0,
        },
        Err(fault) => ReadAnswer {
            number: u32::from(fault.refusal.number()),
            offset: fault.offset,
        },
    }
}

// A message for a table by value.
pub fn read_value(table: Table, message: &[u8]) -> ReadStepped
    ensures { result ≡ read_stepped table message.now }
{
    let reading = reader::read_table(table, message);
    let verdict = reading.verdict;
    let after = reading.table;
    let answer = answer_from(verdict);
    ReadStepped {
        answer,
        table: after,
    }
}

// What a listing is answered: number 0 and the length of the text, or the refusal.
// Kept: C is answered it (`struct dsg_listed` of include/dsg.h), fields, order and types.
#[repr(C)]
#[derive(Clone, Copy)]
pub struct Listed {
    pub number: u32,
    pub length: usize,
}

// The numbers of a listing's answer.
fn listed_from(listed: Result<usize, Refusal>) -> Listed
    ensures { result ≡ listed_as (written listed) }
{
    match listed {
        Ok(length) => Listed { number: 0, length },
        Err(refusal) => Listed {
            number: u32::from(refusal.number()),
            length: 0,
        },
    }
}

// The text of a table by value.
pub fn list_value(table: Table, count: u8, out: &mut [u8]) -> Listed
    ensures { record { answer = result; out = out.new } ≡ list_after table count out.old }
{
    let listed = listing::list_table(count, table, out);
    listed_from(listed)
}

// What dcdlist writes for one body. It takes some 140 KB of stack.
pub fn list_body_value(body: &[u8], out: &mut [u8]) -> Listed
    ensures { record { answer = result; out = out.new } ≡ body_after body.now out.old }
{
    let listed = bodies::list_body(body, out);
    listed_from(listed)
}

// What a writing is answered: number 0, how many bodies were written and the length of each, or the refusal.
// Kept: C is answered it (`struct dsg_written` of include/dsg.h), fields, order and types.
#[repr(C)]
#[derive(Clone, Copy)]
pub struct Written {
    pub number: u32,
    pub pieces: u32,
    pub lengths: [u16; 16],
}

// The bodies of a table by value, under a change count.
pub fn write_value(table: Table, count: u8, out: &mut [u8]) -> Written
    ensures { record { answer = result; out = out.new } ≡ write_after table count out.old }
{
    match writing_table::write_table(count, table, out) {
        Ok(written) => {
            let lengths = written.lengths;
            Written {
                number: 0,
                pieces: written.number as u32,
                lengths,
            }
        }
        Err(refusal) => Written {
            number: refusal.number() as u32,
            pieces: 0,
            lengths: [0u16; 16],
        },
    }
}
