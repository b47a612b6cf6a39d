// What a host does with a table and a client: choose the rule, judge frames, prepare a tunnel to judge many with.
//
// `dsg_choose`, `dsg_judge`, `dsg_prepare` and `dsg_judge_prepared`. A client is a kind and a value; a UCID
// counts where its mark is not 0. The payload is told by its place in the frame: it is not copied.
ghost use Rattle.std.specs.Prelude.{◌≡◌, length};
ghost use Rattle.tunnel_parts.specs.Prepared.{prepared_verdict};
ghost use Rattle.preparing.specs.Preparing.{prepared_tunnel};
ghost use Rattle.dsg_frames.specs.Frames.{client_of, ucid_of, choice_for, verdict_as, verdict_for};

use dsg_frames::{Choice, Verdict, choose_value, judge_parts, judge_value, prepare_value};
use table::Table;
use tunnel_parts::Tunnel;

// The rule for a client, in a table that the host lends.
pub fn dsg_choose(table: &Table, kind: u8, value: u64, known: u8, ucid: u8) -> Choice
    ensures { result ≡ choice_for table.now kind value known ucid }
{
    choose_value(*table, kind, value, known, ucid)
}

// The verdict on a frame, by a table that the host lends.
pub fn dsg_judge(table: &Table, kind: u8, value: u64, known: u8, ucid: u8, frame: &[u8]) -> Verdict
    ensures { result ≡ verdict_for table.now kind value known ucid frame.now }
{
    judge_value(*table, kind, value, known, ucid, frame)
}

// The tunnel of a client, from a table that the host lends.
pub fn dsg_prepare(table: &Table, kind: u8, value: u64, known: u8, ucid: u8) -> Tunnel
    ensures { result ≡ prepared_tunnel table.now (client_of kind value) (ucid_of known ucid) }
{
    prepare_value(*table, kind, value, known, ucid)
}

// The verdict on a frame, by a prepared tunnel that the host lends. It is lent on: a frame costs no copy.
pub fn dsg_judge_prepared(tunnel: &Tunnel, frame: &[u8]) -> Verdict
    ensures { result ≡ verdict_as (prepared_verdict tunnel.now frame.now) (length frame.now) }
{
    judge_parts(tunnel, frame)
}
