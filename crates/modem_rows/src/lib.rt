// The events of a modem and the rows of the table (document 01, "Modem record"), gathered by event.
//
// One public function, `act`, which takes any record and any numbers: what an event does to a record whose clock and timers
// have moved. Numbers that name no event leave the record as it is. The functions stand in the order in which the table
// first names their events; each row is one record with the fields that it moves, as in the columns of the definition `moved`.
#![tactic(auto)]

ghost use Rattle.std.specs.Prelude.{◌≡◌, cond, ◌*◌};
ghost use Rattle.modem_record.specs.States.{ranging, one_way, is_permitted, loaded, retry_of, ucid_of};
ghost use Rattle.modem_record.specs.Record.{moved, defaulted, valued};
ghost use Rattle.modem_rows.specs.Numbers.{event_of, numbers_of};
ghost use Rattle.modem_rows.specs.Events.{start_row, locked_row, empty_row, table_event, heard_row, tick_event, enable_event, up_row, lost_row, disable_event, hunt_row, event_on};

use modem_record::{
    CHECKING, DEFAULT_TDSG1, DEFAULT_TDSG2, Modem, ONE_WAY, RANGING, RESTING, SCANNING, TWO_WAY,
    empty_modem,
};
use table::TimerValues;

// What happens to a modem, in the order of the table.
#[derive(Clone, Copy)]
pub enum Event {
    // Begin anew, with or without permission to transmit.
    Start(bool),
    // A channel was found.
    Locked,
    // No channel was found.
    ScanEmpty,
    // A table was read; its timer values.
    TableAccepted(TimerValues),
    // A packet came through a tunnel.
    Packet,
    // Time has passed: the only event at which a timer acts.
    Tick,
    // Transmitting is permitted from now on.
    Enable,
    // The return path works, on this UCID.
    UpstreamUp(u8),
    // The return path is gone.
    UpstreamLost,
    // Transmitting is forbidden from now on.
    Disable,
    // The client asks for another channel.
    Hunt,
    // The channel is gone.
    DownstreamLost,
    // No event of the table: it only moves the clock and the timers.
    Unnamed,
}

// The numbers of the events, as a C host has them.
pub const START: u8 = 1;

const LOCKED: u8 = 2;

const SCAN_EMPTY: u8 = 3;

const TABLE_ACCEPTED: u8 = 4;

const PACKET: u8 = 5;

const TICK: u8 = 6;

const ENABLE: u8 = 7;

const UPSTREAM_UP: u8 = 8;

const UPSTREAM_LOST: u8 = 9;

const DISABLE: u8 = 10;

const HUNT: u8 = 11;

const DOWNSTREAM_LOST: u8 = 12;

const UNNAMED: u8 = 0;

// An event as a C host names it: its number, and four arguments, of which those that it does not carry are not looked at.
#[derive(Clone, Copy)]
pub struct Numbers {
    pub kind: u8,
    pub a: u16,
    pub b: u16,
    pub c: u16,
    pub d: u16,
}

impl From<Numbers> for Event {
    ghost from_gives = { λ n e. e ≡ event_of n.kind n.a n.b n.c n.d };

    // The event that the numbers name.
    #[tactic(auto, unfolding(crate::specs::Numbers::event_of))]
    fn from(n: Numbers) -> Event {
        match n.kind {
            START if n.a < 2 => Event::Start(n.a == 1),
            LOCKED => Event::Locked,
            SCAN_EMPTY => Event::ScanEmpty,
            TABLE_ACCEPTED => Event::TableAccepted(TimerValues {
                tdsg1: n.a,
                tdsg2: n.b,
                tdsg3: n.c,
                tdsg4: n.d,
            }),
            PACKET => Event::Packet,
            TICK => Event::Tick,
            ENABLE => Event::Enable,
            UPSTREAM_UP if n.a < 256 => Event::UpstreamUp(n.a as u8),
            UPSTREAM_LOST => Event::UpstreamLost,
            DISABLE => Event::Disable,
            HUNT => Event::Hunt,
            DOWNSTREAM_LOST => Event::DownstreamLost,
            _ => Event::Unnamed,
        }
    }
}

// An event that carries nothing.
fn bare(kind: u8) -> Numbers
    ensures { result ≡ record { kind = kind; a = 0; b = 0; c = 0; d = 0 } }
{
    Numbers {
        kind,
        a: 0,
        b: 0,
        c: 0,
        d: 0,
    }
}

impl From<Event> for Numbers {
    ghost from_gives = { λ e n. (n ≡ numbers_of e) × (event_of n.kind n.a n.b n.c n.d ≡ e) };

    // The numbers that name an event.
    #[tactic(auto, unfolding(crate::specs::Numbers::event_of))]
    fn from(event: Event) -> Numbers {
        match event {
            Event::Start(permitted) => Numbers {
                a: u16::from(permitted),
                ..bare(START)
            },
            Event::Locked => bare(LOCKED),
            Event::ScanEmpty => bare(SCAN_EMPTY),
            Event::TableAccepted(timers) => Numbers {
                kind: TABLE_ACCEPTED,
                a: timers.tdsg1,
                b: timers.tdsg2,
                c: timers.tdsg3,
                d: timers.tdsg4,
            },
            Event::Packet => bare(PACKET),
            Event::Tick => bare(TICK),
            Event::Enable => bare(ENABLE),
            Event::UpstreamUp(ucid) => Numbers {
                a: u16::from(ucid),
                ..bare(UPSTREAM_UP)
            },
            Event::UpstreamLost => bare(UPSTREAM_LOST),
            Event::Disable => bare(DISABLE),
            Event::Hunt => bare(HUNT),
            Event::DownstreamLost => bare(DOWNSTREAM_LOST),
            Event::Unnamed => bare(UNNAMED),
        }
    }
}

// Seconds in milliseconds.
fn milliseconds(seconds: u16) -> u32
    ensures { result ≡ seconds * 1000 }
{
    u32::from(seconds) * 1000
}

// Start.
#[tactic(auto, unfolding(crate::specs::Events::start_row))]
fn start(clock: u32, permitted: bool) -> Modem
    ensures { result ≡ start_row permitted clock }
{
    Modem {
        last: clock,
        state: SCANNING,
        permission: u8::from(permitted),
        ..empty_modem()
    }
}

// Locked.
#[tactic(auto, unfolding(crate::specs::Events::locked_row))]
fn lock(m: Modem) -> Modem
    ensures { result ≡ locked_row m m }
{
    if m.state == SCANNING {
        Modem {
            state: CHECKING,
            receiveon: 1,
            receive: milliseconds(m.tdsg1),
            ..m
        }
    } else {
        m
    }
}

// Scan empty.
#[tactic(auto, unfolding(crate::specs::Events::empty_row))]
fn give_up(m: Modem) -> Modem
    ensures { result ≡ empty_row m m }
{
    if m.state == SCANNING {
        Modem {
            state: RESTING,
            receiveon: 1,
            receive: milliseconds(m.tdsg4),
            ..m
        }
    } else {
        m
    }
}

// A packet, or a table in a forwarding state: the receive timer runs anew.
#[tactic(auto, unfolding(crate::specs::Events::heard_row))]
fn hear(m: Modem) -> Modem
    ensures { result ≡ heard_row m m }
{
    if m.is_forwarding() {
        Modem {
            receiveon: 1,
            receive: milliseconds(m.tdsg2),
            ..m
        }
    } else {
        m
    }
}

// A timer value as a table gives it: 0 counts as its default.
fn or_default(value: u16, default: u16) -> u16
    ensures { result ≡ defaulted value default }
{
    if value == 0 { default } else { value }
}

// The record with the timer values of a table.
fn value(m: Modem, timers: TimerValues) -> Modem
    ensures { result ≡ valued m timers.tdsg1 timers.tdsg2 timers.tdsg3 timers.tdsg4 }
{
    Modem {
        tdsg1: or_default(timers.tdsg1, DEFAULT_TDSG1),
        tdsg2: or_default(timers.tdsg2, DEFAULT_TDSG2),
        tdsg3: timers.tdsg3,
        tdsg4: timers.tdsg4,
        ..m
    }
}

// Out of Checking, with the values of a table: the receive timer from its Tdsg2.
fn leave_checking(n: Modem) -> Modem
    ensures { result ≡ moved n (cond (is_permitted n) ranging one_way) (ucid_of n) (loaded n.tdsg2) (retry_of n) }
{
    Modem {
        state: if n.permission == 1 { RANGING } else { ONE_WAY },
        receiveon: 1,
        receive: milliseconds(n.tdsg2),
        ..n
    }
}

// Table accepted: the values first, then the receive timer from the new Tdsg2.
#[tactic(auto, unfolding(crate::specs::Events::table_event, crate::specs::Events::table_row, crate::specs::Events::heard_row))]
fn accept(m: Modem, timers: TimerValues) -> Modem
    ensures { result ≡ table_event timers.tdsg1 timers.tdsg2 timers.tdsg3 timers.tdsg4 m }
{
    let n = value(m, timers);
    if m.state == CHECKING {
        return leave_checking(n);
    }
    if m.is_forwarding() {
        return hear(n);
    }
    m
}

// Tick: the receive timer at 0 first, then the retry timer.
#[tactic(auto, unfolding(crate::specs::Events::tick_event, crate::specs::Events::rest_row, crate::specs::Events::wake_row, crate::specs::Events::retry_row))]
fn tick(m: Modem) -> Modem
    ensures { result ≡ tick_event m }
{
    let silent = (m.receiveon != 0) & (m.receive == 0);
    if m.is_four() & silent {
        return Modem {
            state: RESTING,
            hasucid: 0,
            ucid: 0,
            receiveon: 1,
            receive: milliseconds(m.tdsg4),
            retryon: 0,
            retry: 0,
            ..m
        };
    }
    if (m.state == RESTING) & silent {
        return Modem {
            state: SCANNING,
            receiveon: 0,
            receive: 0,
            ..m
        };
    }
    if (m.state == ONE_WAY) & ((m.retryon != 0) & (m.retry == 0)) & (m.permission == 1) {
        return Modem {
            state: RANGING,
            retryon: 0,
            retry: 0,
            ..m
        };
    }
    m
}

// Enable.
#[tactic(auto, unfolding(crate::specs::Events::enable_event, crate::specs::Events::enable_row))]
fn enable(m: Modem) -> Modem
    ensures { result ≡ enable_event m }
{
    if m.state == ONE_WAY {
        Modem {
            permission: 1,
            state: RANGING,
            retryon: 0,
            retry: 0,
            ..m
        }
    } else {
        Modem { permission: 1, ..m }
    }
}

// Upstream up.
#[tactic(auto, unfolding(crate::specs::Events::up_row))]
fn rise(m: Modem, ucid: u8) -> Modem
    ensures { result ≡ up_row ucid m m }
{
    if m.state == RANGING {
        Modem {
            state: TWO_WAY,
            hasucid: 1,
            ucid,
            ..m
        }
    } else {
        m
    }
}

// Upstream lost.
#[tactic(auto, unfolding(crate::specs::Events::lost_row))]
fn lose(m: Modem) -> Modem
    ensures { result ≡ lost_row m m }
{
    if m.is_sending() {
        Modem {
            state: ONE_WAY,
            hasucid: 0,
            ucid: 0,
            retryon: 1,
            retry: milliseconds(m.tdsg3),
            ..m
        }
    } else {
        m
    }
}

// Disable: the retry timer is stopped in every state.
#[tactic(auto, unfolding(crate::specs::Events::disable_event, crate::specs::Events::disable_row))]
fn disable(m: Modem) -> Modem
    ensures { result ≡ disable_event m }
{
    let n = Modem {
        permission: 0,
        retryon: 0,
        retry: 0,
        ..m
    };
    if m.is_sending() {
        Modem {
            state: ONE_WAY,
            hasucid: 0,
            ucid: 0,
            ..n
        }
    } else {
        n
    }
}

// Hunt, or the channel is gone.
#[tactic(auto, unfolding(crate::specs::Events::hunt_row))]
fn hunt(m: Modem) -> Modem
    ensures { result ≡ hunt_row m m }
{
    if m.is_four() {
        Modem {
            state: SCANNING,
            hasucid: 0,
            ucid: 0,
            receiveon: 0,
            receive: 0,
            retryon: 0,
            retry: 0,
            ..m
        }
    } else {
        m
    }
}

// What an event does to a record whose clock and timers have moved. The event comes by its numbers.
#[tactic(auto, unfolding(crate::specs::Events::event_on))]
pub fn act(m: Modem, numbers: Numbers) -> Modem
    ensures { result ≡ event_on (event_of numbers.kind numbers.a numbers.b numbers.c numbers.d) m }
{
    match Event::from(numbers) {
        Event::Start(permitted) => start(m.last, permitted),
        Event::Locked => lock(m),
        Event::ScanEmpty => give_up(m),
        Event::TableAccepted(timers) => accept(m, timers),
        Event::Packet => hear(m),
        Event::Tick => tick(m),
        Event::Enable => enable(m),
        Event::UpstreamUp(ucid) => rise(m, ucid),
        Event::UpstreamLost => lose(m),
        Event::Disable => disable(m),
        Event::Hunt | Event::DownstreamLost => hunt(m),
        Event::Unnamed => m,
    }
}
