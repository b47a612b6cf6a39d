// Chooses the rule for a client (document 01, "Choosing and judging").
//
// Two public functions. `choose_rule` takes any lent table, client and UCID, and answers the rule's place in the
// table, from 0, or refusal 17; `rule_at` gives the rule there. A UCID is the number of the upstream channel, none
// where no channel is known. Both take any input; a count above its limit is read as the limit. Nothing is written.
#![tactic(auto)]

ghost use Rattle.std.specs.Prelude.{◌≡◌, false};
ghost use Rattle.choice.specs.Choose.{lists_client, lists_ucid, admits_ucid, fits_client, choice_of, rule_at};
ghost use Rattle.choice.specs.Chose.{chose};

use order::best_place;
use refusals::Refusal;
use table::{Client, Rule, Table, empty_rule, limited};

// Whether the rule lists the client.
fn lists_client(rule: &Rule, client: Client) -> bool
    ensures { result ≡ lists_client rule.now client }
{
    let count = limited(rule.clientcount, 8);
    rule.clients[..count].contains(&client)
}

// Whether a place of the rule's client list, used or not, has the client's value: a quick test that most rules fail. It looks
// at all eight, without a branch for each.
fn has_value(rule: &Rule, client: Client) -> bool
    ensures { result ≡ false → lists_client rule.now client ≡ false }
{
    let mut seen = false;
    for listed in &rule.clients {
        seen |= listed.value == client.value;
    }
    seen
}

// Whether the rule's UCID list has this number.
fn lists_ucid(rule: &Rule, ucid: u8) -> bool
    ensures { result ≡ lists_ucid rule.now ucid }
{
    let count = limited(rule.ucidcount, 16);
    rule.ucids[..count].contains(&ucid)
}

// Whether the rule has no UCID list, or the UCID is known and in it.
fn admits_ucid(rule: &Rule, ucid: Option<u8>) -> bool
    ensures { result ≡ admits_ucid rule.now ucid }
{
    match ucid {
        None => rule.ucidcount == 0,
        Some(number) => rule.ucidcount == 0 || lists_ucid(rule, number),
    }
}

// Whether the rule fits the client.
fn fits_client(rule: &Rule, client: Client, ucid: Option<u8>) -> bool
    ensures { result ≡ fits_client client ucid rule.now }
{
    has_value(rule, client) && lists_client(rule, client) && admits_ucid(rule, ucid)
}

// The rule for a client: the greatest priority, among equals the smallest number, then the first.
pub fn choose_rule(table: Table, client: Client, ucid: Option<u8>) -> Result<usize, Refusal>
    ensures { chose result ≡ choice_of table client ucid }
{
    let count = limited(table.rulecount, 32);
    let place = best_place(
        &table.rules[..count],
        |rule| (rule.priority, u16::from(rule.number)),
        |rule| fits_client(rule, client, ucid),
    );
    place.ok_or(Refusal::NoRule)
}

// The rule at a place of the table; an unused one beyond its last rule.
pub fn rule_at(table: Table, place: usize) -> Rule
    ensures { result ≡ rule_at table place }
{
    if place < limited(table.rulecount, 32) {
        return table.rules[place];
    }
    empty_rule()
}
