// The modem record (document 01, "Modem record"): its states, its marks, and which records keep the rules.
//
// `empty_modem` is an idle record to begin with. `counts_idle` is the test that every event but Start meets first: a record
// that breaks the rules counts as Idle. The methods `is_sending`, `is_forwarding` and `is_four` ask for a state alone. All
// take any record and change none.
#![tactic(auto)]

ghost use Rattle.std.specs.Prelude.{◌≡◌, ◌≤◌, eqb};
ghost use Rattle.modem_record.specs.States.{is_sending, is_forwarding, is_four};
ghost use Rattle.modem_record.specs.Record.{counts_idle, empty_modem};
ghost use Rattle.modem_record.specs.Idle.{is_unsuited, is_late, is_held_over};

// The numbers of the states. Any other number breaks a record.
pub const IDLE: u8 = 0;

pub const SCANNING: u8 = 1;

pub const CHECKING: u8 = 2;

pub const ONE_WAY: u8 = 3;

pub const RANGING: u8 = 4;

pub const TWO_WAY: u8 = 5;

pub const RESTING: u8 = 6;

// The default timer values: how long a channel is tried, how long one that forwards waits for a packet, how long the
// transmitter rests, and how long a modem rests.
pub const DEFAULT_TDSG1: u16 = 2;

pub const DEFAULT_TDSG2: u16 = 600;

pub const DEFAULT_TDSG3: u16 = 300;

pub const DEFAULT_TDSG4: u16 = 1800;

// The most that a timer can be loaded with, in milliseconds: 65,535 seconds.
const MOST: u32 = 65535000;

// A bit for each number `8 state + 4 receiveon + 2 hasucid + permission` of a record that is in a state, has the marks of
// that state and a permission that it allows.
const SUITED: u64 = 13651674617873152;

// The modem record. Times in milliseconds, timer values in seconds. A mark (`receiveon`, `retryon`, `hasucid`) is 1
// where the value it belongs to counts, 0 where it does not; permission is 1 or 0. The order leaves no padding.
// Kept: a C host lends it (`dsg_event` in include/dsg.h): states and marks are numbers, and every value of every byte has a meaning.
#[repr(C)]
#[derive(Clone, Copy)]
pub struct Modem {
    pub last: u32,
    pub receive: u32,
    pub retry: u32,
    pub tdsg1: u16,
    pub tdsg2: u16,
    pub tdsg3: u16,
    pub tdsg4: u16,
    pub receiveon: u16,
    pub retryon: u16,
    pub state: u8,
    pub permission: u8,
    pub hasucid: u8,
    pub ucid: u8,
}

// An idle record, with the default timer values.
pub fn empty_modem() -> Modem
    ensures { result ≡ empty_modem }
{
    Modem {
        last: 0,
        receive: 0,
        retry: 0,
        tdsg1: DEFAULT_TDSG1,
        tdsg2: DEFAULT_TDSG2,
        tdsg3: DEFAULT_TDSG3,
        tdsg4: DEFAULT_TDSG4,
        receiveon: 0,
        retryon: 0,
        state: IDLE,
        permission: 0,
        hasucid: 0,
        ucid: 0,
    }
}

impl Modem {
    // Whether the state is one of the two in which the transmitter is on.
    pub fn is_sending(self) -> bool
        ensures { result ≡ is_sending self }
    {
        matches!(self.state, RANGING | TWO_WAY)
    }

    // Whether the state is one of the three that forward tunnels.
    pub fn is_forwarding(self) -> bool
        ensures { result ≡ is_forwarding self }
    {
        matches!(self.state, ONE_WAY | RANGING | TWO_WAY)
    }

    // Whether the state is one of the four in which the receive timer guards a channel.
    pub fn is_four(self) -> bool
        ensures { result ≡ is_four self }
    {
        matches!(self.state, CHECKING | ONE_WAY | RANGING | TWO_WAY)
    }

    // Whether a record is Idle or in no state, or has marks or a permission that its state has not: one test that none of
    // the three numbers is over 1, and one look into `SUITED`.
    fn is_unsuited(self) -> bool
        ensures { result ≡ is_unsuited self.state self.receiveon self.hasucid self.permission }
    {
        let r = u32::from(self.receiveon);
        let u = u32::from(self.hasucid);
        let p = u32::from(self.permission);
        if 7 < self.state {
            return true;
        }
        if 1 < (r | u | p) {
            return true;
        }
        suited_bit(u32::from(self.state), r, u, p) == 0
    }

    // Whether the retry timer runs where it must not, or shows more than it can be loaded with.
    fn is_late(self) -> bool
        ensures { result ≡ is_late self.state self.permission self.retryon self.retry }
    {
        if self.retryon == 0 {
            return false;
        }
        (self.retryon != 1) | (self.state != ONE_WAY) | (self.permission != 1) | (MOST < self.retry)
    }
}

// The bit of `SUITED` for these four.
fn suited_bit(state: u32, receiveon: u32, hasucid: u32, permission: u32) -> u64
    requires { (state ≤ 7) × (receiveon ≤ 1) × (hasucid ≤ 1) × (permission ≤ 1) }
    ensures { eqb result 0 ≡ is_unsuited state receiveon hasucid permission }
{
    (SUITED >> (state * 8 + receiveon * 4 + hasucid * 2 + permission)) % 2
}

// Whether a timer that runs shows more than it can be loaded with: what it shows, times its mark.
fn is_held_over(on: u16, left: u32) -> bool
    requires { on ≤ 1 }
    ensures { result ≡ is_held_over on left }
{
    MOST < left * u32::from(on)
}

// Whether a record is Idle or breaks a rule. The order of the tests is the one that compiles to the fewest instructions.
pub fn counts_idle(m: Modem) -> bool
    ensures { result ≡ counts_idle m }
{
    if m.tdsg1 == 0 {
        return true;
    }
    if m.tdsg2 == 0 {
        return true;
    }
    if m.is_late() {
        return true;
    }
    if m.is_unsuited() {
        return true;
    }
    is_held_over(m.receiveon, m.receive)
}
