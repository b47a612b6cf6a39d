// One event on a modem record, the event by its numbers: the clock, the timers, then the rows (document 01, "Modem record").
//
// `step_numbered` takes a record by value and an event as C names it, and gives the next record. It takes any input. One
// refusal, 18, leaves the record as it was; a record that breaks the rules counts as Idle, so every event but Start leaves
// it, too, as it was.
#![tactic(auto)]

ghost use Rattle.std.specs.Prelude.{◌≡◌, ◌&&◌, ◌==◌, nat_lt};
ghost use Rattle.modem_step.specs.Numbers.{told, numbered_step};

use modem_record::{Modem, counts_idle};
use modem_rows::{Numbers, START};
use refusals::Refusal;

mod clock;

// Whether the numbers name a Start.
fn is_start(numbers: Numbers) -> bool
    ensures { result ≡ (numbers.kind == 1 && nat_lt numbers.a 2) }
{
    (numbers.kind == START) & (numbers.a < 2)
}

// One event, by its number (specs/Numbers.antt of modem_rows) and what it carries. In Idle, and where the record counts as
// Idle, only Start acts, whatever the clock says. Where an event acts, the clock and the timers move first. Whether it is a
// Start is asked only where another event would not act: asked first, it costs the compiled step 14 in 100.
pub fn step_numbered(modem: Modem, clock: u32, numbers: Numbers) -> Result<Modem, Refusal>
    ensures { told modem result ≡ numbered_step modem clock numbers.kind numbers.a numbers.b numbers.c numbers.d }
{
    if counts_idle(modem) && !is_start(numbers) {
        return Ok(modem);
    }
    if clock::is_back(clock, modem.last) && !is_start(numbers) {
        return Err(Refusal::ClockBack);
    }
    let next = modem_rows::act(clock::age(modem, clock), numbers);
    Ok(next)
}
