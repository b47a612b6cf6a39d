// The lines of a table's listing, each at the place of a writer.
//
// Every function here is private to the crate. It asks for room, a line for as many bytes as its longest text takes, writes its text
// and leaves the writer behind it.
ghost use Rattle.std.specs.Prelude.{◌≡◌, ◌+◌, ◌≤◌, length};
ghost use Rattle.table.specs.Table.{rules_of, classifiers_of, channels_of};
ghost use Rattle.texts.specs.Text.{each};
ghost use Rattle.texts.specs.Writing.{Lined};
ghost use Rattle.listing.specs.Text.{sizes_line, rule_line, classifier_line, channel_line, timers_line};

use table::{Classifier, Rule, Table, TimerValues};
use texts::Writer;

// The first line: the change count and three sizes.
pub(crate) fn put_sizes(count: u8, table: Table, w: &mut Writer<'_>)
    requires { w.old.at + 44 ≤ length w.old.out.now }
    ensures buffer { w.new.out.ghost_name ≡ w.old.out.ghost_name }
    ensures text { Lined 44 w.old.out.now w.old.at (sizes_line count table) w.new.out.now w.new.at }
{
    let rules = table::limited(table.rulecount, 32);
    let classifiers = table::limited(table.classifiercount, 32);
    let channels = table::limited(table.channelcount, 32);
    w.put_field(b"dcd ", count as u64);
    w.put_field(b" rules ", rules as u64);
    w.put_field(b" classifiers ", classifiers as u64);
    w.put_field(b" channels ", channels as u64);
    w.put_byte(b'\n');
}

// The line of a rule.
fn put_rule(rule: Rule, w: &mut Writer<'_>)
    requires { w.old.at + 66 ≤ length w.old.out.now }
    ensures buffer { w.new.out.ghost_name ≡ w.old.out.ghost_name }
    ensures text { Lined 66 w.old.out.now w.old.at (rule_line rule) w.new.out.now w.new.at }
{
    let clients = table::limited(rule.clientcount, 8);
    let numbers = table::limited(rule.numbercount, 8);
    w.put_field(b"rule ", rule.number as u64);
    w.put_field(b" priority ", rule.priority as u64);
    w.put_address(b" tunnel ", rule.tunnel);
    w.put_field(b" clients ", clients as u64);
    w.put_field(b" classifiers ", numbers as u64);
    w.put_byte(b'\n');
}

// The line of a classifier.
fn put_classifier(classifier: Classifier, w: &mut Writer<'_>)
    requires { w.old.at + 30 ≤ length w.old.out.now }
    ensures buffer { w.new.out.ghost_name ≡ w.old.out.ghost_name }
    ensures text { Lined 30 w.old.out.now w.old.at (classifier_line classifier) w.new.out.now w.new.at }
{
    w.put_field(b"classifier ", classifier.number as u64);
    w.put_field(b" priority ", classifier.priority as u64);
    w.put_byte(b'\n');
}

// The line of a channel.
fn put_channel(hertz: u32, w: &mut Writer<'_>)
    requires { w.old.at + 19 ≤ length w.old.out.now }
    ensures buffer { w.new.out.ghost_name ≡ w.old.out.ghost_name }
    ensures text { Lined 19 w.old.out.now w.old.at (channel_line hertz) w.new.out.now w.new.at }
{
    w.put_field(b"channel ", hertz as u64);
    w.put_byte(b'\n');
}

// The line of the timer values.
pub(crate) fn put_timers(timers: TimerValues, w: &mut Writer<'_>)
    requires { w.old.at + 31 ≤ length w.old.out.now }
    ensures buffer { w.new.out.ghost_name ≡ w.old.out.ghost_name }
    ensures text { Lined 31 w.old.out.now w.old.at (timers_line timers) w.new.out.now w.new.at }
{
    w.put_field(b"timers ", timers.tdsg1 as u64);
    w.put_field(b" ", timers.tdsg2 as u64);
    w.put_field(b" ", timers.tdsg3 as u64);
    w.put_field(b" ", timers.tdsg4 as u64);
    w.put_byte(b'\n');
}

// The lines of a table's rules, 66 bytes each at most.
pub(crate) fn put_rules(table: Table, w: &mut Writer<'_>)
    requires { w.old.at + 2112 ≤ length w.old.out.now }
    ensures buffer { w.new.out.ghost_name ≡ w.old.out.ghost_name }
    ensures text { Lined 2112 w.old.out.now w.old.at (each rule_line (rules_of table)) w.new.out.now w.new.at }
{
    let n = table::limited(table.rulecount, 32);
    w.put_each::<66, _, _>(&table.rules[..n], put_rule);
}

// The lines of a table's classifiers, 30 bytes each at most.
pub(crate) fn put_classifiers(table: Table, w: &mut Writer<'_>)
    requires { w.old.at + 960 ≤ length w.old.out.now }
    ensures buffer { w.new.out.ghost_name ≡ w.old.out.ghost_name }
    ensures text { Lined 960 w.old.out.now w.old.at (each classifier_line (classifiers_of table)) w.new.out.now w.new.at }
{
    let n = table::limited(table.classifiercount, 32);
    w.put_each::<30, _, _>(&table.classifiers[..n], put_classifier);
}

// The lines of a table's channels, 19 bytes each at most.
pub(crate) fn put_channels(table: Table, w: &mut Writer<'_>)
    requires { w.old.at + 608 ≤ length w.old.out.now }
    ensures buffer { w.new.out.ghost_name ≡ w.old.out.ghost_name }
    ensures text { Lined 608 w.old.out.now w.old.at (each channel_line (channels_of table)) w.new.out.now w.new.at }
{
    let n = table::limited(table.channelcount, 32);
    w.put_each::<19, _, _>(&table.channels[..n], put_channel);
}
