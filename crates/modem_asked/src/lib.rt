// What a host asks of a modem record (document 01, "Modem record"): whether it transmits, whether it forwards.
//
// `transmits` and `forwards`. Both take any record and change none: one that breaks the rules counts as Idle, and does neither.
#![tactic(auto)]

ghost use Rattle.std.specs.Prelude.{◌≡◌};
ghost use Rattle.modem_asked.specs.Asked.{transmits, forwards};

use modem_record::{Modem, counts_idle};

// Whether the transmitter is on.
#[tactic(auto, unfolding(crate::specs::Asked::transmits))]
pub fn transmits(modem: Modem) -> bool
    ensures { result ≡ transmits modem }
{
    !counts_idle(modem) & modem.is_sending()
}

// Whether tunnels are forwarded.
#[tactic(auto, unfolding(crate::specs::Asked::forwards))]
pub fn forwards(modem: Modem) -> bool
    ensures { result ≡ forwards modem }
{
    !counts_idle(modem) & modem.is_forwarding()
}
