// The elements of a table one behind the other in an array, and the lengths of the pieces that they make (document 02, Req 01).
//
// One public function, `put_message`. It takes any table and an array that any message fits, writes the message at the array's start,
// leaves every byte behind it as it was, and answers its length and the record of its pieces.
// The private functions ask that their elements have room.
#![tactic(auto)]

ghost use Rattle.std.specs.Prelude.{◌≡◌, ◌+◌, ◌*◌, ◌≤◌, length};
ghost use Rattle.table.specs.Table.{classifiers_of, rules_of};
ghost use Rattle.writing_elements.specs.Encode.{classifier_bytes, rule_bytes};
ghost use Rattle.writing_message.specs.Message.{cut_on, message_in};
ghost use Rattle.writing_message.specs.Filling.{Filled, Line, PutsWithin, Added};

use table::Table;
use writing_classifiers::put_classifier;
use writing_rules::put_rule;

// The most bytes of the message in a piece.
const PIECE_BYTES: usize = 1497;

// The pieces so far: how many are closed, the bytes of the one that is being filled, the lengths of the closed ones.
// Kept: an array with its count beside, since there is no heap.
#[derive(Clone, Copy)]
pub struct Cut {
    pub closed: u8,
    pub now: u16,
    pub lengths: [u16; 16],
}

// A message in an array: its length, and its pieces.
#[derive(Clone, Copy)]
pub struct Message {
    pub length: usize,
    pub cut: Cut,
}

// One element more: it goes into the piece that is being filled, or begins the next.
fn add_element(cut: Cut, n: usize) -> Cut
    requires { (n ≤ 256) × Filled 5632 cut }
    ensures { result ≡ cut_on n cut }
{
    let mut lengths = cut.lengths;
    if PIECE_BYTES < (cut.now as usize) + n {
        lengths[cut.closed as usize] = cut.now;
        return Cut {
            closed: cut.closed + 1,
            now: n as u16,
            lengths,
        };
    }
    Cut {
        closed: cut.closed,
        now: cut.now + (n as u16),
        lengths,
    }
}

// An element for each entry of a list, behind what is there: `put` writes that of one, of at most MOST bytes, where it has room.
fn put_entries<const MOST: usize, T: Copy, F: Fn(T, &mut [u8], usize) -> usize>(
    entries: &[T],
    put: F,
    held: &mut [u8],
    done: Message,
) -> Message
    ghost line: { Line MOST T }
    requires few { (MOST ≤ 256) × (length entries.now ≤ 32) }
    requires room { (length held.old ≡ 5632) × (done.length + MOST * 32 ≤ 5632) }
    requires filled { Filled done.length done.cut }
    requires puts { PutsWithin MOST line.bytes (F.pre put) (F.post put) }
    ensures { Added (MOST * 32) line.bytes entries.now held.old done held.new result }
{
    let mut cut = done.cut;
    let mut at = done.length;
    for entry in entries {
        let next = put(*entry, held, at);
        cut = add_element(cut, next - at);
        at = next;
    }
    Message { length: at, cut }
}

// The classifiers, behind what is there.
fn put_classifiers(table: Table, held: &mut [u8], done: Message) -> Message
    requires { (length held.old ≡ 5632) × (done.length ≤ 210) × Filled done.length done.cut }
    ensures { Added 1184 classifier_bytes (classifiers_of table) held.old done held.new result }
{
    let n = table::limited(table.classifiercount, table::CLASSIFIERS);
    put_entries::<37, _, _>(&table.classifiers[..n], put_classifier, held, done)
}

// The rules, behind what is there.
fn put_rules(table: Table, held: &mut [u8], done: Message) -> Message
    requires { (length held.old ≡ 5632) × (done.length ≤ 1394) × Filled done.length done.cut }
    ensures { Added 4224 rule_bytes (rules_of table) held.old done held.new result }
{
    let n = table::limited(table.rulecount, table::RULES);
    put_entries::<132, _, _>(&table.rules[..n], put_rule, held, done)
}

// The message of a table at the start of an array: the configuration, the classifiers, the rules.
pub fn put_message(table: Table, held: &mut [u8; 5632]) -> Message
    ensures { record { message = result; held = held.new } ≡ message_in table held.old }
{
    let none = Cut {
        closed: 0,
        now: 0,
        lengths: [0u16; 16],
    };
    let at = writing_configurations::put_configuration(table, held, 0);
    let cut = add_element(none, at);
    let configured = Message { length: at, cut };
    let classified = put_classifiers(table, held, configured);
    put_rules(table, held, classified)
}
