// Where a joined message was cut (document 02, Req 04): refusal 21.
//
// One public function, `judge_cuts`. It takes any message, lengths and number and refuses nothing: that a cut is bad is an
// answer. It looks only at the heads of top-level elements, one after the other, and writes nothing.
#![tactic(auto)]

ghost use Rattle.std.specs.Prelude.{◌≡◌, ◌≤◌, length};
ghost use Rattle.cuts.specs.Cuts.{ruling, cuts_in};
ghost use Rattle.cuts.specs.Duties.{Passed};

// Passes whole elements from the start `from` on that end at the cut or before it: where the first stands that does not, or
// the cut. `place` is that of a length byte: what is carried on is not the start, so that the next one is read as soon as this
// one is known.
fn pass_elements(message: &[u8], from: usize, cut: usize) -> usize
    requires { (from ≤ cut) × (cut ≤ length message.now) }
    ensures { Passed message.now from cut result }
{
    let stop = cut + 1;
    let mut place = from + 1;
    // Kept: no count, and its form was measured (docs/DECISIONS.md, D-073).
    loop {
        let next = place + 2;
        if stop < next {
            return place - 1;
        }
        let len = message[place] as usize;
        if stop - next < len {
            return place - 1;
        }
        if len == 255 {
            return place - 1;
        }
        place = next + len;
    }
}

// The first bad cut between the first `n` pieces of a message, as a place in it: pieces of these lengths, one behind the other; from
// the seventeenth on they have no bytes. A piece begins at `cut`, where an element starts, or the message ends. The head at which
// the walk stops may be read twice, every other once.
pub fn judge_cuts(message: &[u8], lengths: [u16; 16], n: usize) -> Option<usize>
    ensures { ruling result ≡ cuts_in message.now lengths n }
{
    let judged = n.saturating_sub(1).min(16);
    let mut cut = 0;
    for length in &lengths[..judged] {
        let from = cut;
        cut += usize::from(*length);
        if message.len() < cut {
            return None;
        }
        let at = pass_elements(message, from, cut);
        if at < cut {
            elements::value_at(message, at, message.len())?;
            return Some(cut);
        }
    }
    None
}
