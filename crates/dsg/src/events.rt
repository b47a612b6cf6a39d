// What a host does with the modem record: tell it an event, ask whether it transmits and forwards.
//
// `dsg_empty_modem`, `dsg_event`, `dsg_transmits` and `dsg_forwards`. An event is a number and four
// arguments; at one that names none only the clock and the running timers move.
ghost use Rattle.std.specs.Prelude.{◌≡◌};
ghost use Rattle.modem_record.specs.Record.{empty_modem};
ghost use Rattle.modem_asked.specs.Asked.{transmits, forwards};
ghost use Rattle.dsg_events.specs.Events.{event_stepped};

use dsg_events::event_value;
use modem_record::Modem;

// One event for a record that the host lends.
pub fn dsg_event(modem: &mut Modem, clock: u32, event: u8, a: u16, b: u16, c: u16, d: u16) -> u32
    ensures { record { number = result; modem = modem.new } ≡ event_stepped modem.old clock event a b c d }
{
    let s = event_value(*modem, clock, event, a, b, c, d);
    *modem = s.modem;
    s.number
}

// Whether the transmitter is on.
pub fn dsg_transmits(modem: &Modem) -> bool
    ensures { result ≡ transmits modem.now }
{
    modem_asked::transmits(*modem)
}

// Whether tunnels are forwarded.
pub fn dsg_forwards(modem: &Modem) -> bool
    ensures { result ≡ forwards modem.now }
{
    modem_asked::forwards(*modem)
}

// An idle record.
pub fn dsg_empty_modem() -> Modem
    ensures { result ≡ empty_modem }
{
    modem_record::empty_modem()
}
