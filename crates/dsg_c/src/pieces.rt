// What a host does with a body: collect it, or take it all the way to a table.
//
// `dsg_empty_collection`, `dsg_collect` and `dsg_receive`. The message that a body completes is told by its
// place, in the body or in the join buffer: it is not copied again.
ghost use Rattle.std.specs.Prelude.{◌≡◌};
ghost use Rattle.collection.specs.Record.{empty_collection};
ghost use Rattle.dsg_pieces.specs.Bodies.{collect_after, receive_after};

use collection::Collection;
use dsg_pieces::{Collected, Received};
use table::Table;

// One body for a record that the host lends.
#[unsafe(no_mangle)]
pub extern "C" fn dsg_collect(
    held: &mut Collection,
    slots: &mut [u8],
    join: &mut [u8],
    body: &[u8],
) -> Collected
    ensures { record { answer = result; held = held.new; slots = slots.new; join = join.new } ≡ collect_after held.old slots.old join.old body.now }
{
    dsg::pieces::dsg_collect(held, slots, join, body)
}

// One body all the way, for a record and a table that the host lends.
#[unsafe(no_mangle)]
pub extern "C" fn dsg_receive(
    held: &mut Collection,
    table: &mut Table,
    slots: &mut [u8],
    join: &mut [u8],
    body: &[u8],
) -> Received
    ensures { record { answer = result; held = held.new; table = table.new; slots = slots.new; join = join.new } ≡ receive_after held.old table.old slots.old join.old body.now }
{
    dsg::pieces::dsg_receive(held, table, slots, join, body)
}

// A record with nothing collected, loose (0) or strict.
#[unsafe(no_mangle)]
pub extern "C" fn dsg_empty_collection(strict: u16) -> Collection
    ensures { result ≡ empty_collection strict 0 0 }
{
    dsg::pieces::dsg_empty_collection(strict)
}
