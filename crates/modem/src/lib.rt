// One event on a modem record (document 01, "Modem record").
//
// `step_modem` takes a record by value and gives the next record; `on_event` is the same on a record that the host lends. Both
// take any input; `modem_step::step_numbered` does the work. One refusal, 18, leaves the record as it was; a record that breaks
// the rules counts as Idle, so every event but Start leaves it, too, as it was.
#![tactic(auto)]

ghost use Rattle.std.specs.Prelude.{◌≡◌};
ghost use Rattle.modem_step.specs.Step.{stepped_modem};
ghost use Rattle.modem_step.specs.Numbers.{as_numbers, told, answered};

use modem_record::Modem;
use modem_rows::{Event, Numbers};
use refusals::Refusal;

// One event.
#[tactic(auto, unfolding(modem_step::specs::Numbers::numbered_step))]
pub fn step_modem(modem: Modem, clock: u32, event: Event) -> Result<Modem, Refusal>
    ensures { told modem result ≡ as_numbers (stepped_modem modem clock event) }
{
    modem_step::step_numbered(modem, clock, Numbers::from(event))
}

// One event on a record that the host lends.
// Kept: an event function by `&mut` over a step by value is the form that document 01 names.
pub fn on_event(modem: &mut Modem, clock: u32, event: Event) -> Result<(), Refusal>
    ensures { record { answer = answered result; modem = modem.new } ≡ as_numbers (stepped_modem modem.old clock event) }
{
    *modem = step_modem(*modem, clock, event)?;
    Ok(())
}
