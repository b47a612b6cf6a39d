// The clock of a modem record and its running timers. Nothing here moves a modem to another state.
ghost use Rattle.std.specs.Prelude.{◌≡◌};
ghost use Rattle.modem_step.specs.Step.{clock_step, is_back, fallen, aged};

use modem_record::Modem;

// The step of the clock since `last`, over its top.
pub(crate) fn elapsed(clock: u32, last: u32) -> u32
    ensures { result ≡ clock_step clock last }
{
    clock.wrapping_sub(last)
}

// Whether the clock went back: half of its range decides.
#[tactic(auto, unfolding(crate::specs::Step::is_back))]
pub(crate) fn is_back(clock: u32, last: u32) -> bool
    ensures { result ≡ is_back clock last }
{
    2147483648 <= elapsed(clock, last)
}

// What a timer shows after a step.
#[tactic(auto, unfolding(crate::specs::Step::fallen))]
fn fall(on: u16, left: u32, by: u32) -> u32
    ensures { result ≡ fallen on left by }
{
    if on == 0 {
        left
    } else {
        left.saturating_sub(by)
    }
}

// The clock and the running timers moved.
pub(crate) fn age(m: Modem, clock: u32) -> Modem
    ensures { result ≡ aged m clock }
{
    let by = elapsed(clock, m.last);
    Modem {
        last: clock,
        receive: fall(m.receiveon, m.receive, by),
        retry: fall(m.retryon, m.retry, by),
        ..m
    }
}
