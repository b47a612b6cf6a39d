// The records that a table is made of, and their empty values (document 01, "Elements").
//
// Four public functions, `empty_client`, `empty_rule`, `empty_classifier` and `empty_table`; and
// `limited`, by which every count of a lent record is read. All take any input and refuse nothing.
// Records hold numbers and arrays only and are `#[repr(C)]`, so that a C host can lend them as they are.
#![tactic(auto)]

ghost use Rattle.std.specs.Prelude.{◌≡◌};
ghost use Rattle.table.specs.Table.{limited_to, empty_client, empty_rule, empty_classifier, default_timers, empty_table};

// The kinds of a client ID: the subtype of its element in 50.4, and 0 for a broadcast of length 0.
pub const BROADCAST_ALL: u8 = 0;

pub const BROADCAST: u8 = 1;

pub const WELL_KNOWN_MAC: u8 = 2;

pub const CA_SYSTEM: u8 = 3;

pub const APPLICATION: u8 = 4;

// The room of a table and of a rule.
pub const RULES: usize = 32;

pub const CLASSIFIERS: usize = 32;

pub const CHANNELS: usize = 32;

pub const RULE_CLIENTS: usize = 8;

pub const RULE_CLASSIFIERS: usize = 8;

pub const RULE_UCIDS: usize = 16;

// A client ID: its kind, and its value as a number (a MAC as its six bytes, big-endian).
// Kept: kinds, marks and counts are numbers in this record and in the four below, since C lends them as they stand (include/dsg.h), and any value of any byte is taken.
#[repr(C)]
#[derive(Clone, Copy, PartialEq, Eq)]
pub struct Client {
    pub kind: u8,
    pub value: u64,
}

// A rule. Its tunnel address is the number of its six bytes, big-endian; no UCID means no UCID list.
#[repr(C)]
#[derive(Clone, Copy)]
pub struct Rule {
    pub number: u8,
    pub priority: u8,
    pub ucidcount: u8,
    pub clientcount: u8,
    pub numbercount: u8,
    pub ucids: [u8; 16],
    pub numbers: [u16; 8],
    pub tunnel: u64,
    pub clients: [Client; 8],
}

// A classifier. A part is absent where its mark is 0; its value is then 0 in a table that was read.
#[repr(C)]
#[derive(Clone, Copy)]
pub struct Classifier {
    pub destination: u32,
    pub source: u32,
    pub mask: u32,
    pub number: u16,
    pub start: u16,
    pub end: u16,
    pub priority: u8,
    pub hassource: u8,
    pub hasmask: u8,
    pub hasstart: u8,
    pub hasend: u8,
}

// The four timer values in seconds.
#[repr(C)]
#[derive(Clone, Copy)]
pub struct TimerValues {
    pub tdsg1: u16,
    pub tdsg2: u16,
    pub tdsg3: u16,
    pub tdsg4: u16,
}

// A table. Of each list the first places up to its count are used.
#[repr(C)]
#[derive(Clone, Copy)]
pub struct Table {
    pub rulecount: u8,
    pub classifiercount: u8,
    pub channelcount: u8,
    pub timers: TimerValues,
    pub channels: [u32; 32],
    pub classifiers: [Classifier; 32],
    pub rules: [Rule; 32],
}

// A count of a lent record: above its limit it is read as the limit.
pub fn limited(count: u8, limit: usize) -> usize
    ensures { result ≡ limited_to limit count }
{
    usize::from(count).min(limit)
}

// No client: kind and value 0.
pub fn empty_client() -> Client
    ensures { result ≡ empty_client }
{
    Client { kind: 0, value: 0 }
}

// An unused rule: 0 throughout.
pub fn empty_rule() -> Rule
    ensures { result ≡ empty_rule }
{
    let clients = [empty_client(); 8];
    Rule {
        number: 0,
        priority: 0,
        ucidcount: 0,
        clientcount: 0,
        numbercount: 0,
        ucids: [0u8; 16],
        numbers: [0u16; 8],
        tunnel: 0,
        clients,
    }
}

// An unused classifier: 0 throughout, every optional part absent.
pub fn empty_classifier() -> Classifier
    ensures { result ≡ empty_classifier }
{
    Classifier {
        destination: 0,
        source: 0,
        mask: 0,
        number: 0,
        start: 0,
        end: 0,
        priority: 0,
        hassource: 0,
        hasmask: 0,
        hasstart: 0,
        hasend: 0,
    }
}

// The table of the empty message: nothing in it, and the timer values that absent elements mean.
pub fn empty_table() -> Table
    ensures { result ≡ empty_table }
{
    let timers = TimerValues {
        tdsg1: 2,
        tdsg2: 600,
        tdsg3: 300,
        tdsg4: 1800,
    };
    let classifiers = [empty_classifier(); 32];
    let rules = [empty_rule(); 32];
    Table {
        rulecount: 0,
        classifiercount: 0,
        channelcount: 0,
        timers,
        channels: [0u32; 32],
        classifiers,
        rules,
    }
}
