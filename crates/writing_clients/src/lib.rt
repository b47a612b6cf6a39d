// The row of a rule's client IDs, at a place of a buffer (document 02, Req 01).
//
// One public function, `put_clients`. It takes any rule, any buffer and any place. Where fewer than 66 bytes, a head and eight client
// IDs of 8 bytes, are left from the place on, nothing is written and the answer is the place that was given; else just the row is written, and the answer is
// the place behind it. The private functions ask for room.
#![tactic(auto)]

ghost use Rattle.std.specs.Prelude.{◌≡◌, ◌+◌, ◌≤◌, length};
ghost use Rattle.table.specs.Table.{clients_of};
ghost use Rattle.texts.specs.Text.{each};
ghost use Rattle.texts.specs.Writing.{Lined};
ghost use Rattle.writing_elements.specs.Encode.{element, client_bytes};
ghost use Rattle.writing_numbers.specs.Within.{put_within};

use table::{Client, Rule};
use writing_numbers::put_number;

// Writes a client ID, 8 bytes at most.
fn put_client(client: Client, out: &mut [u8], at: usize) -> usize
    requires { at + 8 ≤ length out.old }
    ensures { Lined 8 out.old at (client_bytes client) out.new result }
{
    match client.kind {
        table::BROADCAST_ALL => put_number(1, 0, 0, out, at),
        table::WELL_KNOWN_MAC => put_number(2, 6, client.value, out, at),
        kind => put_number(kind, 2, client.value, out, at),
    }
}

// Writes the client IDs of a rule, in its order.
fn put_each(rule: Rule, out: &mut [u8], at: usize) -> usize
    requires { at + 64 ≤ length out.old }
    ensures { Lined 64 out.old at (each client_bytes (clients_of rule)) out.new result }
{
    let n = table::limited(rule.clientcount, table::RULE_CLIENTS);
    writing_numbers::put_each::<8, _, _>(&rule.clients[..n], put_client, out, at)
}

// Writes the row.
pub fn put_clients(rule: Rule, out: &mut [u8], at: usize) -> usize
    ensures { record { next = result; out = out.new } ≡ put_within 66 (element 4 (each client_bytes (clients_of rule))) out.old at }
{
    writing_numbers::put_element::<64, _, _>(4, rule, put_each, out, at)
}
