// A rule as an element, at a place of a buffer (document 02, Req 01).
//
// One public function, `put_rule`. It takes any rule, any buffer and any place. Where fewer than 132 bytes are left from the place on,
// which are a head, a number and a priority of 3 bytes, UCIDs of 18, client IDs of 66, a tunnel of 8 and eight classifier numbers of 4,
// nothing is written and the answer is the place that was given; else just the element is written, and the answer is
// the place behind it. The private functions ask for room.
#![tactic(auto)]

ghost use Rattle.std.specs.Prelude.{◌≡◌, ◌+◌, ◌≤◌, length};
ghost use Rattle.table.specs.Table.{numbers_of, ucids_of};
ghost use Rattle.texts.specs.Text.{each};
ghost use Rattle.texts.specs.Writing.{Lined};
ghost use Rattle.writing_elements.specs.Encode.{number_bytes, ucid_bytes, rule_row, rule_bytes};
ghost use Rattle.writing_numbers.specs.Within.{put_within};

use table::Rule;
use writing_numbers::put_number;

// Writes the UCIDs of a rule, 18 bytes at most; nothing where there is none.
fn put_ucids(rule: Rule, out: &mut [u8], at: usize) -> usize
    requires { at + 18 ≤ length out.old }
    ensures { Lined 18 out.old at (ucid_bytes (ucids_of rule)) out.new result }
{
    let n = table::limited(rule.ucidcount, 16);
    if n == 0 {
        return at;
    }
    out[at] = 3;
    out[at + 1] = n as u8;
    let ucids = rule.ucids;
    wire::copy_at(out, at + 2, &ucids[..n]);
    at + 2 + n
}

// Writes a classifier number that a rule names.
fn put_name(number: u16, out: &mut [u8], at: usize) -> usize
    requires { at + 4 ≤ length out.old }
    ensures { Lined 4 out.old at (number_bytes number) out.new result }
{
    put_number(6, 2, number as u64, out, at)
}

// Writes the classifier numbers that a rule names, in its order.
fn put_numbers(rule: Rule, out: &mut [u8], at: usize) -> usize
    requires { at + 32 ≤ length out.old }
    ensures { Lined 32 out.old at (each number_bytes (numbers_of rule)) out.new result }
{
    let n = table::limited(rule.numbercount, table::RULE_CLASSIFIERS);
    writing_numbers::put_each::<4, _, _>(&rule.numbers[..n], put_name, out, at)
}

// Writes the children of a rule, by rising type.
fn put_rule_row(rule: Rule, out: &mut [u8], at: usize) -> usize
    requires { at + 130 ≤ length out.old }
    ensures { Lined 130 out.old at (rule_row rule) out.new result }
{
    let a = put_number(1, 1, rule.number as u64, out, at);
    let b = put_number(2, 1, rule.priority as u64, out, a);
    let c = put_ucids(rule, out, b);
    let d = writing_clients::put_clients(rule, out, c);
    let e = put_number(5, 6, rule.tunnel, out, d);
    put_numbers(rule, out, e)
}

// Writes a rule.
#[tactic(auto, unfolding(writing_elements::specs::Encode::rule_bytes))]
pub fn put_rule(rule: Rule, out: &mut [u8], at: usize) -> usize
    ensures { record { next = result; out = out.new } ≡ put_within 132 (rule_bytes rule) out.old at }
{
    writing_numbers::put_element::<130, _, _>(50, rule, put_rule_row, out, at)
}
