// What a host does with a table: begin with an empty one, read a message into it, list it or a body, write it as bodies.
//
// `dsg_empty_table`, `dsg_read`, `dsg_list_table`, `dsg_list_body` and `dsg_write`.
ghost use Rattle.std.specs.Prelude.{◌≡◌};
ghost use Rattle.table.specs.Table.{empty_table};
ghost use Rattle.dsg_tables.specs.Tables.{read_stepped, list_after, body_after, write_after};

use dsg_tables::{
    Listed, ReadAnswer, Written, list_body_value, list_value, read_value, write_value,
};
use table::Table;

// A message for a table that the host lends.
pub fn dsg_read(table: &mut Table, message: &[u8]) -> ReadAnswer
    ensures { record { answer = result; table = table.new } ≡ read_stepped table.old message.now }
{
    let s = read_value(*table, message);
    *table = s.table;
    s.answer
}

// The text of a table that the host lends, and of the change count that it came under.
pub fn dsg_list_table(table: &Table, count: u8, out: &mut [u8]) -> Listed
    ensures { record { answer = result; out = out.new } ≡ list_after table.now count out.old }
{
    list_value(*table, count, out)
}

// What dcdlist writes for one body. It takes some 140 KB of stack.
pub fn dsg_list_body(body: &[u8], out: &mut [u8]) -> Listed
    ensures { record { answer = result; out = out.new } ≡ body_after body.now out.old }
{
    list_body_value(body, out)
}

// The bodies of a table that the host lends, under a change count: body s at (s - 1) x 1,500 of the buffer.
pub fn dsg_write(table: &Table, count: u8, out: &mut [u8]) -> Written
    ensures { record { answer = result; out = out.new } ≡ write_after table.now count out.old }
{
    write_value(*table, count, out)
}

// The table of the empty message.
pub fn dsg_empty_table() -> Table
    ensures { result ≡ empty_table }
{
    table::empty_table()
}
