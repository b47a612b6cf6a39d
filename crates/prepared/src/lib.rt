// Judges a frame by a prepared tunnel alone (document 01, "Choosing and judging").
//
// One public function, `judge_prepared`. It takes any tunnel and any frame, lends the tunnel on, and
// answers what crate `tunnel_parts` answers. Crate `preparing` makes tunnels. Nothing that is lent is written.
#![tactic(auto)]

ghost use Rattle.std.specs.Prelude.{◌≡◌};
ghost use Rattle.payloads.specs.Judged.{judged};
ghost use Rattle.tunnel_parts.specs.Prepared.{prepared_verdict};

use payloads::Verdict;
use tunnel_parts::{Tunnel, judge_lent};

// The verdict on a frame by a prepared tunnel.
pub fn judge_prepared(tunnel: Tunnel, frame: &[u8]) -> Verdict
    ensures { judged result ≡ prepared_verdict tunnel frame.now }
{
    judge_lent(&tunnel, frame)
}
