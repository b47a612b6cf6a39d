// What the row of the configuration leaves in a table.
//
// One public function, `configuration_at`: it takes any message and any place, and takes up the children
// of the element there in byte order. It makes no test: what a message that passed its tests cannot hold
// is passed over, and where no element stands the answer is the empty configuration. It writes nothing;
// the walk changes one local.
#![tactic(auto)]

ghost use Rattle.std.specs.Prelude.{◌≡◌, ◌+◌, ◌≤◌, length};
ghost use Rattle.configurations.specs.Configurations.{empty_configuration, with_timer, configuration_at};

use table::TimerValues;

// The channels and the timer values. Places from the count on hold 0.
// Kept: an array with its count beside, since there is no heap and the record Table takes them in just that form.
#[derive(Clone, Copy)]
pub struct Configuration {
    pub channelcount: u8,
    pub channels: [u32; 32],
    pub timers: TimerValues,
}

// A configuration without channels, with the timer values that absent elements mean.
fn empty_configuration() -> Configuration
    ensures { result ≡ empty_configuration }
{
    let timers = TimerValues {
        tdsg1: 2,
        tdsg2: 600,
        tdsg3: 300,
        tdsg4: 1800,
    };
    Configuration {
        channelcount: 0,
        channels: [0u32; 32],
        timers,
    }
}

// The timer values with the child of 51 at `at` taken up.
fn with_timer(message: &[u8], at: usize, given: TimerValues) -> TimerValues
    requires { at + 2 ≤ length message.now }
    ensures { result ≡ with_timer message.now at given }
{
    let mut timers = given;
    let seconds = numbers::number2(message, at + 2);
    match message[at] {
        2 => {
            timers.tdsg1 = seconds;
        }
        3 => {
            timers.tdsg2 = seconds;
        }
        4 => {
            timers.tdsg3 = seconds;
        }
        5 => {
            timers.tdsg4 = seconds;
        }
        _ => {}
    }
    timers
}

// The configuration of the element at `at`.
pub fn configuration_at(message: &[u8], at: usize) -> Configuration
    ensures { result ≡ configuration_at message.now at }
{
    let mut configuration = empty_configuration();
    for child in children::inside(message, at) {
        if child.kind != 1 {
            let timers = configuration.timers;
            configuration.timers = with_timer(message, child.at, timers);
            continue;
        }
        let n = configuration.channelcount;
        if n < 32 {
            configuration.channels[n as usize] = numbers::number4(message, child.at + 2);
            configuration.channelcount = n + 1;
        }
    }
    configuration
}
