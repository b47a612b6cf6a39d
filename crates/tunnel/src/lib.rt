// Judges a frame by a table and a client (document 01, "Choosing and judging").
//
// One public function, `judge_frame`, which gives the verdict. It takes any input: a frame of a wrong length is
// refusal 16, a client that no rule fits refusal 17, and a count above its limit is read as the limit. Nothing that is
// lent is written.
#![tactic(auto)]

ghost use Rattle.std.specs.Prelude.{◌≡◌, length};
ghost use Rattle.table.specs.Table.{classifiers_of};
ghost use Rattle.order.specs.Best.{within};
ghost use Rattle.payloads.specs.Judged.{judged};
ghost use Rattle.tunnel.specs.Judge.{match_place, rule_verdict, verdict_of};

use choice::{choose_rule, rule_at};
use listed::names_number;
use matching::{entry_of, fits_packet};
use numbers::number6;
use order::best_place;
use packets::{read_packet, read_port, wrong_length};
use payloads::Verdict;
use refusals::Refusal;
use table::{Client, Rule, Table, limited};

// The place of the matching classifier; none where none matches.
fn match_place(table: &Table, rule: &Rule, frame: &[u8]) -> Option<usize>
    ensures { result ≡ within (length (classifiers_of table.now)) (match_place table.now rule.now frame.now) }
{
    let packet = read_packet(frame)?;
    let port = read_port(frame);
    let count = limited(table.classifiercount, 32);
    best_place(
        &table.classifiers[..count],
        |cl| (cl.priority, cl.number),
        |cl| fits_packet(entry_of(*cl), packet, port) && names_number(*rule, cl.number),
    )
}

// The verdict of a chosen rule on a frame.
fn judge_rule(table: &Table, rule: &Rule, frame: &[u8]) -> Verdict
    ensures { judged result ≡ rule_verdict table.now rule.now frame.now }
{
    if number6(frame, 0) != rule.tunnel {
        return Verdict::Other;
    }
    if rule.numbercount == 0 {
        return Verdict::Forward(0);
    }
    match match_place(table, rule, frame) {
        None => Verdict::Filtered,
        Some(place) => Verdict::Forward(table.classifiers[place].number),
    }
}

// The verdict on a frame for a client: refusal 16, then 17, then the chosen rule's.
pub fn judge_frame(table: Table, client: Client, ucid: Option<u8>, frame: &[u8]) -> Verdict
    ensures { judged result ≡ verdict_of table client ucid frame.now }
{
    if wrong_length(frame) {
        return Verdict::Refused(Refusal::FrameLength.number());
    }
    match choose_rule(table, client, ucid) {
        Err(refusal) => Verdict::Refused(refusal.number()),
        Ok(place) => judge_rule(&table, &rule_at(table, place), frame),
    }
}
