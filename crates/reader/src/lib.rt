// Reads a message into a table, or refuses it.
//
// One public function, `read_table`, which takes any message and any table: a bad message is an answer
// (3, 6 to 15, with its offset), and then the table comes back as it was given. Nothing of the given
// table enters an accepted one.
//
// Stack, measured on the compiled code for x86-64: some 34 KB in one frame, which holds the given table, the
// table that is being read and their copies, and under 7 KB below it, whatever the length of the message.
#![tactic(auto)]

ghost use Rattle.std.specs.Prelude.{◌≡◌, length};
ghost use Rattle.reader.specs.Read.{read_table};
ghost use Rattle.reader.specs.Shown.{shown};
ghost use Rattle.reader.specs.Steps.{PlaceFor, TakesUp, ReadsAs};

use refusals::{Fault, Refusal};
use table::Table;

// The longest message.
const MESSAGE_BYTES: usize = 23952;

// What became of a message, and the table: the message's own if it is accepted, else the one given. A refusal has the offset of the
// type byte concerned, 0 for number 3.
#[derive(Clone, Copy)]
pub struct Reading {
    pub verdict: Result<(), Fault>,
    pub table: Table,
}

// What the top-level elements leave: where the configuration stands, or the end of the message; and the table without it.
#[derive(Clone, Copy)]
pub struct Taken {
    configured: usize,
    table: Table,
}

// Test 14: the number of the element at `at`, which is to be the next of a list of which the first `count` are used. Its place, where
// it is noted; none if the list of 32 is full.
fn place_for(
    list: &mut [u16; 32],
    count: u8,
    number: u16,
    at: usize,
) -> Result<Option<usize>, Fault>
    requires { length list.old ≡ 32 }
    ensures { PlaceFor list.old count number at result list.new }
{
    if listed::is_listed(list, count, number) {
        return Err(Fault {
            refusal: Refusal::NumberTaken,
            offset: at,
        });
    }
    let place = usize::from(count);
    if 32 <= place {
        return Ok(None);
    }
    list[place] = number;
    Ok(Some(place))
}

// The top-level elements in byte order, each tested 6 to 14 and taken up; of the configuration its place is noted.
fn take_up(message: &[u8]) -> Result<Taken, Fault>
    ensures { TakesUp message.now result }
{
    let mut table = table::empty_table();
    let mut ruleids = [0u16; 32];
    let mut carried = [0u16; 32];
    let mut configured = message.len();
    let mut here = 0;
    let mut tally = rows::empty_tally();
    // Kept: no count, since `test_element` answers where the next element stands.
    while here < message.len() {
        let next = rows::test_element(message, here, tally)?;
        match message[here] {
            50 => {
                let rule = rules::rule_at(message, here);
                let place = place_for(&mut ruleids, table.rulecount, rule.number as u16, here)?;
                if let Some(place) = place {
                    table.rules[place] = rule;
                    table.rulecount += 1;
                }
            }
            23 => {
                let classifier = classifiers::classifier_at(message, here);
                let place = place_for(
                    &mut carried,
                    table.classifiercount,
                    classifier.number,
                    here,
                )?;
                if let Some(place) = place {
                    table.classifiers[place] = classifier;
                    table.classifiercount += 1;
                }
            }
            51 => {
                configured = here;
            }
            _ => {}
        }
        here = next.place;
        tally = next.tally;
    }
    Ok(Taken { configured, table })
}

// The table of a message, or its first refusal: 3, then 6 to 15.
fn read_message(message: &[u8]) -> Result<Table, Fault>
    ensures { ReadsAs message.now result }
{
    if MESSAGE_BYTES < message.len() {
        return Err(Fault {
            refusal: Refusal::TooLong,
            offset: 0,
        });
    }
    let taken = take_up(message)?;
    let mut table = taken.table;
    let configuration = configurations::configuration_at(message, taken.configured);
    // Kept: an array goes from one struct to another through a variable, since the checker does not cover the store of a field straight from a field.
    let channels = configuration.channels;
    let timers = configuration.timers;
    table.channels = channels;
    table.timers = timers;
    table.channelcount = configuration.channelcount;
    match named::lone_number(message, table) {
        None => Ok(table),
        Some(offset) => Err(Fault {
            refusal: Refusal::Unanswered,
            offset,
        }),
    }
}

// Reads the message. After a refusal the given table is handed back.
pub fn read_table(given: Table, message: &[u8]) -> Reading
    ensures { shown result ≡ read_table given message.now }
{
    match read_message(message) {
        Ok(table) => Reading {
            verdict: Ok(()),
            table,
        },
        Err(fault) => Reading {
            verdict: Err(fault),
            table: given,
        },
    }
}
