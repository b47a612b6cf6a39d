// Tests one element of a known type by itself: refusals 9 to 12 of document 01.
//
// Two public functions: `own_tests`, which takes any message, type, place, length and count, and `no_channel`, test 11 of any
// number as a frequency. They write nothing: a refusal is an answer. That a value is a row, and what stands in it, is not
// their matter.
#![tactic(auto)]

ghost use Rattle.std.specs.Prelude.{◌≡◌, ℕ, ◌+◌};
ghost use Rattle.numbers.specs.Numbers.{number_at};
ghost use Rattle.element_tests.specs.Stepped.{step_of};
ghost use Rattle.element_tests.specs.Tests.{second_copy, wrong_length, no_channel, bad_value, is_full, own_tests};

use refusals::Refusal;
use types::{Known, Length, Values};

// Test 9.
fn second_copy(repeats: bool, count: u8) -> bool
    ensures { result ≡ second_copy repeats count }
{
    !repeats && count != 0
}

// Test 10.
fn wrong_length(allowed: Length, len: usize) -> bool
    ensures { result ≡ wrong_length allowed len }
{
    match allowed {
        Length::Row => false,
        Length::Bytes(n) => len != n,
        Length::NoneOr(n) => len != 0 && len != n,
        Length::OrMore(n) => len < n,
    }
}

// Whether a number is no channel's frequency.
pub fn no_channel(hertz: u32) -> bool
    ensures { result ≡ no_channel hertz }
{
    hertz < 62500 || 1000000000 < hertz || hertz % 62500 != 0
}

// Where the value of the element at `at` begins; the message's end where that is sooner.
fn value_place(message: &[u8], at: usize) -> usize
    ensures { (w : ℕ) → number_at w message.now result ≡ number_at w message.now (at + 2) }
{
    at.saturating_add(2).min(message.len())
}

// Test 11.
fn bad_value(message: &[u8], allowed: Values, at: usize, len: usize) -> bool
    ensures { result ≡ bad_value message.now allowed at len }
{
    match allowed {
        Values::Any => false,
        Values::NotZero => len == 2 && numbers::number2(message, value_place(message, at)) == 0,
        Values::Channel => no_channel(numbers::number4(message, value_place(message, at))),
    }
}

// Test 12.
fn is_full(repeats: bool, room: u8, count: u8, len: usize) -> bool
    ensures { result ≡ is_full repeats room count len }
{
    if repeats {
        room <= count
    } else {
        usize::from(room) < len
    }
}

// Tests 9 to 12 of an element of a known type, of whose list `count` elements stand before it: the first of them that it fails,
// in the order of their numbers, or the count after it.
pub fn own_tests(
    message: &[u8],
    known: Known,
    at: usize,
    len: usize,
    count: u8,
) -> Result<u8, Refusal>
    ensures { step_of at known.list count result ≡ own_tests message.now known at len count }
{
    if second_copy(known.repeats, count) {
        return Err(Refusal::SecondCopy);
    }
    if wrong_length(known.length, len) {
        return Err(Refusal::WrongLength);
    }
    if bad_value(message, known.values, at, len) {
        return Err(Refusal::BadValue);
    }
    if is_full(known.repeats, known.room, count, len) {
        return Err(Refusal::Full);
    }
    Ok(count + 1)
}
