// Whether an entry of a lent table is one that reading could have left there: what refusal 19 asks of one rule and of one classifier.
//
// Four public functions take any entry: `is_sound_rule` and `is_sound_classifier` say whether a used one could have been read,
// `is_unused_rule` and `is_unused_classifier` whether it is 0 throughout. `places_fit` tests each place of a list by a function that is
// passed in. They write nothing. `&` works out both of its sides, so that the tests of an entry cost no branch each.
#![tactic(auto)]

ghost use Rattle.std.specs.Prelude.{◌≡◌, Bool, cond, not, drop};
ghost use Rattle.writing_entries.specs.Entries.{all_of, list_fits, is_zero, sound_client, unused_client, sound_rule, unused_rule, sound_part, sound_classifier, unused_classifier};

use table::{Classifier, Client, Rule};

// The least number that has more than 48 bits, and more than 16.
const SIX_BYTES: u64 = 281474976710656;

const TWO_BYTES: u64 = 65536;

// Whether a place of a client list is as it must be: a used one could have been read, another is empty.
#[tactic(auto, unfolding(crate::specs::Entries::sound_client, crate::specs::Entries::unused_client))]
fn client_fits(used: bool, client: Client) -> bool
    ensures { result ≡ cond used (sound_client client) (unused_client client) }
{
    let value = client.value;
    if !used {
        return (client.kind == 0) & (value == 0);
    }
    match client.kind {
        table::BROADCAST_ALL => value == 0,
        table::BROADCAST => (value != 0) & (value < TWO_BYTES),
        table::WELL_KNOWN_MAC => value < SIX_BYTES,
        table::CA_SYSTEM | table::APPLICATION => value < TWO_BYTES,
        _ => false,
    }
}

// Whether every place of a list is as it must be, by a test that is told whether the place is one of the first `used`. Every place is
// tested, whatever the others say.
pub fn places_fit<T: Copy, F: Fn(bool, T) -> bool>(places: &[T], used: usize, fits: F) -> bool
    requires { F.IsAlwaysCallable fits }
    ensures { (sound : T → Bool) (unused : T → Bool) → ((is_used : Bool) (x : T) (r : Bool) → F.post fits is_used x r → r ≡ cond is_used (sound x) (unused x)) → result ≡ list_fits sound unused used places.now }
{
    let mut fit = true;
    for (j, place) in places.iter().enumerate() {
        fit &= fits(j < used, *place);
    }
    fit
}

// Whether the first `n` places of a rule's client list are as they must be where used, and the others unused.
fn clients_fit(clients: &[Client; 8], n: usize) -> bool
    ensures { result ≡ list_fits sound_client unused_client n clients.now }
{
    places_fit(clients, n, client_fits)
}

// Whether the places of a UCID list behind its first `n` are 0.
fn ucids_fit(ucids: &[u8; 16], n: usize) -> bool
    ensures { result ≡ all_of is_zero (drop n ucids.now) }
{
    places_fit(ucids, n, |used, ucid| used | (ucid == 0))
}

// Whether the first `n` places of a list of classifier numbers are not 0, and the others are.
fn numbers_fit(numbers: &[u16; 8], n: usize) -> bool
    ensures { result ≡ list_fits (λ m. not (is_zero m)) is_zero n numbers.now }
{
    places_fit(numbers, n, |used, number| used != (number == 0))
}

// Whether a used rule could have been read.
pub fn is_sound_rule(rule: Rule) -> bool
    ensures { result ≡ sound_rule rule }
{
    let ucids = ucids_fit(&rule.ucids, rule.ucidcount as usize);
    let clients = clients_fit(&rule.clients, rule.clientcount as usize);
    let numbers = numbers_fit(&rule.numbers, rule.numbercount as usize);
    (rule.ucidcount <= 16)
        & (ucids
            & ((rule.clientcount <= 8)
                & (clients & ((rule.numbercount <= 8) & (numbers & (rule.tunnel < SIX_BYTES))))))
}

// Whether a rule is 0 throughout.
pub fn is_unused_rule(rule: Rule) -> bool
    ensures { result ≡ unused_rule rule }
{
    let ucids = ucids_fit(&rule.ucids, 0);
    let numbers = numbers_fit(&rule.numbers, 0);
    let clients = clients_fit(&rule.clients, 0);
    (rule.number == 0)
        & ((rule.priority == 0)
            & ((rule.ucidcount == 0)
                & ((rule.clientcount == 0)
                    & ((rule.numbercount == 0)
                        & (ucids & (numbers & ((rule.tunnel == 0) & clients)))))))
}

// Whether a mark and its part could have been read.
fn is_sound_part(mark: u8, value: u32) -> bool
    ensures { result ≡ sound_part mark value }
{
    if mark == 0 {
        return value == 0;
    }
    mark == 1
}

// Whether a used classifier could have been read.
pub fn is_sound_classifier(classifier: Classifier) -> bool
    ensures { result ≡ sound_classifier classifier }
{
    let source = is_sound_part(classifier.hassource, classifier.source);
    let mask = is_sound_part(classifier.hasmask, classifier.mask);
    let start = is_sound_part(classifier.hasstart, classifier.start as u32);
    let end = is_sound_part(classifier.hasend, classifier.end as u32);
    (classifier.number != 0) & (source & (mask & (start & end)))
}

// Whether a classifier is 0 throughout.
pub fn is_unused_classifier(classifier: Classifier) -> bool
    ensures { result ≡ unused_classifier classifier }
{
    (classifier.destination == 0)
        & ((classifier.source == 0)
            & ((classifier.mask == 0)
                & ((classifier.number == 0)
                    & ((classifier.start == 0)
                        & ((classifier.end == 0)
                            & ((classifier.priority == 0)
                                & ((classifier.hassource == 0)
                                    & ((classifier.hasmask == 0)
                                        & ((classifier.hasstart == 0)
                                            & (classifier.hasend == 0))))))))))
}
