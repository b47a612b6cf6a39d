// A number looked up in a list: of 32, or of the 8 of a rule.
//
// Public functions: `is_listed`, for tests 14 and 15, and `names_number`, for the classifiers of a rule. Both take any
// input: a count above its limit is read as the limit. They write nothing.
#![tactic(auto)]

ghost use Rattle.std.specs.Prelude.{◌≡◌};
ghost use Rattle.table.specs.Table.{limited_to};
ghost use Rattle.listed.specs.Listed.{is_among, names_number};

use table::{Rule, limited};

// Whether the number is among the first `count` of the list. It looks at every one, so that the loop has one way out.
pub fn is_listed(list: &[u16; 32], count: u8, number: u16) -> bool
    ensures { result ≡ is_among number (limited_to 32 count) list.now }
{
    let end = limited(count, 32);
    let mut listed = false;
    for i in 0..end {
        if list[i] == number {
            listed = true;
        }
    }
    listed
}

// Whether the rule names this classifier number.
pub fn names_number(rule: Rule, number: u16) -> bool
    ensures { result ≡ names_number rule number }
{
    let count = limited(rule.numbercount, 8);
    rule.numbers[..count].contains(&number)
}
