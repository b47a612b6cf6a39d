// Refusal 19: whether reading can produce a lent table.
//
// One public function, `is_producible`, which takes any table. It writes nothing. Every test is made, whatever the others say: a table
// that is not refused pays for all of them. A list is handed on by itself, so that the table is not copied for each test.
#![tactic(auto)]

ghost use Rattle.std.specs.Prelude.{◌≡◌, not};
ghost use Rattle.element_tests.specs.Tests.{no_channel};
ghost use Rattle.writing_entries.specs.Entries.{list_fits, is_zero};
ghost use Rattle.writing_check.specs.Producible.{producible};

use table::Table;

// Whether the first `count` channels could have been read, and the places behind them are 0.
fn channels_fit(channels: [u32; 32], count: u8) -> bool
    ensures { result ≡ list_fits (λ hertz. not (no_channel hertz)) is_zero count channels }
{
    writing_entries::places_fit(&channels, count as usize, |used, hertz| {
        if used {
            !element_tests::no_channel(hertz)
        } else {
            hertz == 0
        }
    })
}

// Whether reading can produce the table. Whether a classifier carries each number that a rule names is test 15, with no message to find
// the number in; it comes last.
pub fn is_producible(table: Table) -> bool
    ensures { result ≡ producible table }
{
    let timers = table.timers;
    let channels = table.channels;
    let classifiers = table.classifiers;
    let rules = table.rules;
    let fit = (table.channelcount <= 32)
        & (channels_fit(channels, table.channelcount)
            & ((table.classifiercount <= 32)
                & (writing_lists::classifiers_fit(classifiers, table.classifiercount)
                    & ((table.rulecount <= 32)
                        & (writing_lists::rules_fit(rules, table.rulecount)
                            & ((timers.tdsg1 != 0) & (timers.tdsg2 != 0)))))));
    if !fit {
        return false;
    }
    named::lone_number(b"", table).is_none()
}
