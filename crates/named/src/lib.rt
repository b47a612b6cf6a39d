// The classifier numbers that rules name: test 15.
//
// One public function, which takes any input: `lone_number` answers where the first 50.6 of a message stands whose number no
// classifier of a table carries. Counts above their limits are read as the limits. It writes nothing that is lent.
#![tactic(auto)]

ghost use Rattle.std.specs.Prelude.{◌≡◌, ◌≤◌, length, get_or};
ghost use Rattle.children.specs.Children.{left, places_in};
ghost use Rattle.table.specs.Table.{limited_to};
ghost use Rattle.named.specs.Named.{unanswered, named_place, lone_number};
ghost use Rattle.named.specs.Sought.{found, in_words, sought};

use children::Children;
use table::{Rule, Table};

// Where the n-th of these elements of this type stands, counted from 0; 0 if there are fewer.
fn nth_place(elements: Children, kind: u8, n: usize) -> usize
    ensures { result ≡ get_or (places_in kind (left elements.entry)) n 0 }
{
    // Kept: a count in place of `filter` and `nth`, of which the check did not find `get_or` of the filtered list.
    let mut before = n;
    for child in elements {
        if child.kind == kind {
            if before == 0 {
                return child.at;
            }
            before -= 1;
        }
    }
    0
}

// Where the j-th 50.6 of the i-th rule stands.
fn named_place(message: &[u8], i: usize, j: usize) -> usize
    ensures { result ≡ named_place message.now i j }
{
    let rules = children::children_of(message, 0, message.len());
    let rule = nth_place(rules, 50, i);
    nth_place(children::inside(message, rule), 6, j)
}

// How many classifier numbers a rule names, which has room for eight.
fn named_count(rule: Rule) -> usize
    ensures { (result ≡ limited_to 8 rule.numbercount) × (result ≤ 8) × (length rule.numbers ≡ 8) }
{
    table::limited(rule.numbercount, 8)
}

// The first number that a rule names and that no classifier carries: rule i's number j. At a classifier that carries a number the
// search goes on with the next number, and at the first number without one it is left, each by its label.
fn first_unanswered(table: Table) -> Option<(usize, usize)>
    ensures { found result ≡ unanswered table }
{
    let mut found = None;
    let rules = table::limited(table.rulecount, 32);
    let classifiers = table::limited(table.classifiercount, 32);
    'search: for i in 0..rules {
        let rule = table.rules[i];
        let numbers = named_count(rule);
        'number: for j in 0..numbers {
            let number = rule.numbers[j];
            for k in 0..classifiers {
                let classifier = table.classifiers[k];
                if classifier.number == number {
                    continue 'number;
                }
            }
            found = Some((i, j));
            break 'search;
        }
    }
    found
}

// Test 15 of the table that a message's elements leave: where the first 50.6 stands whose number no classifier carries.
pub fn lone_number(message: &[u8], table: Table) -> Option<usize>
    ensures { in_words (sought result) ≡ in_words (lone_number message.now table) }
{
    let (i, j) = first_unanswered(table)?;
    Some(named_place(message, i, j))
}
