// Reads the two head bytes of an element and says how long its value is.
//
// `read_head` takes any message, any place and any end of a row and has no `requires`: bad input is
// an answer (6, 7 or 8), never a duty of the caller. It looks at no value and writes nothing.
#![tactic(auto)]

ghost use Rattle.std.specs.Prelude.{◌≡◌};
ghost use Rattle.elements.specs.Elements.{value_in, head_at};
ghost use Rattle.elements.specs.Stood.{stood};

use refusals::Refusal;

// What stands at `at` in a row of the message that ends at `end`: nothing where no byte is left; else the length of the value of
// an element, which starts two bytes on and lies whole in the row, or the first of refusals 6, 7, 8 that the two head bytes earn.
// The tests stand in the order of their numbers.
pub fn read_head(message: &[u8], at: usize, end: usize) -> Result<Option<usize>, Refusal>
    ensures { stood result ≡ head_at message.now at end }
{
    let stop = end.min(message.len());
    if stop <= at {
        return Ok(None);
    }
    let left = stop - at;
    if left == 1 {
        return Err(Refusal::CutHead);
    }
    let length = usize::from(message[at + 1]);
    if length == 255 {
        return Err(Refusal::Length255);
    }
    if left - 2 < length {
        return Err(Refusal::PastEnd);
    }
    Ok(Some(length))
}

// The length of the value of the element at `at` in a row of the message that ends at `end`; none where no element stands.
pub fn value_at(message: &[u8], at: usize, end: usize) -> Option<usize>
    ensures { result ≡ value_in (head_at message.now at end) }
{
    read_head(message, at, end).unwrap_or(None)
}
