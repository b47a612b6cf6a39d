// Whether the rules and the classifiers of a lent table are such as reading could have left: what refusal 19 asks of the two lists.
//
// Two public functions, `rules_fit` and `classifiers_fit`. They take any array and any count, which is read as 32 where it is above,
// and write nothing. The numbers that are passed are noted in an array of their own, in which each next one is looked up.
#![tactic(auto)]

ghost use Rattle.std.specs.Prelude.{◌≡◌, ℕ, Bool, ◌&&◌, length, map, take};
ghost use Rattle.table.specs.Table.{limited_to};
ghost use Rattle.listed.specs.Listed.{is_distinct};
ghost use Rattle.writing_entries.specs.Entries.{list_fits, sound_rule, unused_rule, sound_classifier, unused_classifier};
ghost use Rattle.writing_lists.specs.Lists.{rules_fit, classifiers_fit};

use table::{Classifier, Rule};
use writing_entries::{is_sound_classifier, is_sound_rule, is_unused_classifier, is_unused_rule};

// An entry of a table's list: its number, whether reading could have left it in a used place, and whether it is unused.
trait Entry: Copy {
    ghost number_of: { Self → ℕ };

    ghost sound: { Self → Bool };

    ghost unused: { Self → Bool };

    fn number(self) -> u16
        ensures { result ≡ number_of self };

    fn is_sound(self) -> bool
        ensures { result ≡ sound self };

    fn is_unused(self) -> bool
        ensures { result ≡ unused self };
}

impl Entry for Classifier {
    ghost number_of = { λ q. q.number };

    ghost sound = { sound_classifier };

    ghost unused = { unused_classifier };

    fn number(self) -> u16 {
        self.number
    }

    fn is_sound(self) -> bool {
        is_sound_classifier(self)
    }

    fn is_unused(self) -> bool {
        is_unused_classifier(self)
    }
}

impl Entry for Rule {
    ghost number_of = { λ q. q.number };

    ghost sound = { sound_rule };

    ghost unused = { unused_rule };

    fn number(self) -> u16 {
        self.number as u16
    }

    fn is_sound(self) -> bool {
        is_sound_rule(self)
    }

    fn is_unused(self) -> bool {
        is_unused_rule(self)
    }
}

// Whether the first `count` entries could have been read, each with a number of its own, and the places behind them are unused. The
// numbers that are passed are noted, and each next one is looked up among them.
fn entries_fit<E: Entry>(entries: &[E], count: u8) -> bool
    requires { length entries.now ≡ 32 }
    ensures { result ≡ (list_fits E.sound E.unused (limited_to 32 count) entries.now && is_distinct (map E.number_of (take (limited_to 32 count) entries.now))) }
{
    let n = table::limited(count, 32);
    let mut ids = [0u16; 32];
    let mut fit = true;
    for (i, entry) in entries[..n].iter().enumerate() {
        let number = entry.number();
        fit &= entry.is_sound() & !listed::is_listed(&ids, i as u8, number);
        ids[i] = number;
    }
    for entry in &entries[n..] {
        fit &= entry.is_unused();
    }
    fit
}

// Whether the first `count` classifiers could have been read, each with a number of its own, and the places behind them are unused.
#[tactic(auto, unfolding(crate::specs::Lists::classifiers_fit))]
pub fn classifiers_fit(classifiers: [Classifier; 32], count: u8) -> bool
    ensures { result ≡ classifiers_fit (limited_to 32 count) classifiers }
{
    entries_fit(&classifiers, count)
}

// Whether the first `count` rules could have been read, each with a number of its own, and the places behind them are unused.
#[tactic(auto, unfolding(crate::specs::Lists::rules_fit))]
pub fn rules_fit(rules: [Rule; 32], count: u8) -> bool
    ensures { result ≡ rules_fit (limited_to 32 count) rules }
{
    entries_fit(&rules, count)
}
