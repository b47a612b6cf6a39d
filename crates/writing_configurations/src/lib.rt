// The configuration of a table as an element, at a place of a buffer (document 02, Req 01).
//
// One public function, `put_configuration`. It takes any table, buffer and place. Where the longest configuration has no
// room, or the table's has no child, nothing is written and the answer is the place that was given; else just the element
// is written, and the answer is the place behind it. The private functions ask for room from `at` on and answer the place
// behind what they write.
#![tactic(auto)]

ghost use Rattle.std.specs.Prelude.{◌≡◌, ◌++◌, ◌+◌, ◌≤◌, length, take};
ghost use Rattle.wire.specs.Bytes.{concat};
ghost use Rattle.table.specs.Table.{limited_to};
ghost use Rattle.texts.specs.Text.{each};
ghost use Rattle.texts.specs.Writing.{Lined};
ghost use Rattle.writing_elements.specs.Encode.{channel_bytes, timer, timers_row, configuration_row, configured};
ghost use Rattle.writing_numbers.specs.Within.{put_within};

use table::{Table, TimerValues};
use writing_numbers::{has_room, put_number};

// A timer value that is written where it is not the usual one.
fn put_timer(kind: u8, usual: u16, value: u16, out: &mut [u8], at: usize) -> usize
    requires { at + 4 ≤ length out.old }
    ensures { Lined 4 out.old at (timer kind usual value) out.new result }
{
    if value == usual {
        return at;
    }
    put_number(kind, 2, value as u64, out, at)
}

// The four timer values, 4 bytes each at most.
fn put_timers(timers: TimerValues, out: &mut [u8], at: usize) -> usize
    requires { at + 16 ≤ length out.old }
    ensures { Lined 16 out.old at (timers_row timers) out.new result }
{
    let a = put_timer(2, 2, timers.tdsg1, out, at);
    let b = put_timer(3, 600, timers.tdsg2, out, a);
    let c = put_timer(4, 300, timers.tdsg3, out, b);
    put_timer(5, 1800, timers.tdsg4, out, c)
}

// A channel, 6 bytes.
fn put_channel(hertz: u32, out: &mut [u8], at: usize) -> usize
    requires { at + 6 ≤ length out.old }
    ensures { Lined 6 out.old at (channel_bytes hertz) out.new result }
{
    put_number(1, 4, hertz as u64, out, at)
}

// The channels, 32 at most.
fn put_channels(channels: &[u32], out: &mut [u8], at: usize) -> usize
    requires { (length channels.now ≤ 32) × (at + 192 ≤ length out.old) }
    ensures { Lined 192 out.old at (each channel_bytes channels.now) out.new result }
{
    writing_numbers::put_each::<6, _, _>(channels, put_channel, out, at)
}

// The children of the configuration, by rising type, 208 bytes at most.
fn put_row(count: u8, channels: [u32; 32], timers: TimerValues, out: &mut [u8], at: usize) -> usize
    requires { at + 208 ≤ length out.old }
    ensures { Lined 208 out.old at (each channel_bytes (take (limited_to 32 count) channels) ++ timers_row timers) out.new result }
{
    let n = table::limited(count, 32);
    let next = put_channels(&channels[..n], out, at);
    put_timers(timers, out, next)
}

// Writes the configuration of a table, 210 bytes at most. Its head is stored when a child is written.
pub fn put_configuration(table: Table, out: &mut [u8], at: usize) -> usize
    ensures { record { next = result; out = out.new } ≡ put_within 210 (concat (configured (configuration_row table))) out.old at }
{
    if !has_room(out.len(), at, 210) {
        return at;
    }
    let channels = table.channels;
    let timers = table.timers;
    let next = put_row(table.channelcount, channels, timers, out, at + 2);
    if next == at + 2 {
        return at;
    }
    // Kept: `put_element` stores a head ahead of a value of any length, and a configuration without a child has no head.
    out[at] = 51;
    out[at + 1] = (next - at - 2) as u8;
    next
}
