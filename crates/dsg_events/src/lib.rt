// The answer to an event as a number, for a modem record by value.
//
// `event_value`. An event is a number and four arguments; at one that names none only the clock and the running timers move.
#![tactic(auto)]

ghost use Rattle.std.specs.Prelude.{◌≡◌};
ghost use Rattle.dsg_events.specs.Events.{event_stepped};

use modem_record::Modem;
use modem_rows::Numbers;

// The number that an event is answered, 0 or the refusal, and the record after it.
// Kept: what `dsg_event` tells a C host; the promise of that function equates these two with `event_stepped`.
#[derive(Clone, Copy)]
pub struct EventStepped {
    pub number: u32,
    pub modem: Modem,
}

// One event for a record by value.
pub fn event_value(
    modem: Modem,
    clock: u32,
    event: u8,
    a: u16,
    b: u16,
    c: u16,
    d: u16,
) -> EventStepped
    ensures { result ≡ event_stepped modem clock event a b c d }
{
    let numbers = Numbers {
        kind: event,
        a,
        b,
        c,
        d,
    };
    match modem_step::step_numbered(modem, clock, numbers) {
        Ok(next) => EventStepped {
            number: 0,
            modem: next,
        },
        Err(refusal) => EventStepped {
            number: u32::from(refusal.number()),
            modem,
        },
    }
}
