// The verdict on a frame, and the payload of a judged frame, lent back (document 01, "Choosing and judging").
//
// Two public functions, `payload` and `payload_range`, which take any verdict and any frame, or any length of one. They write
// nothing and copy nothing. That the payload begins at byte 14 stands in `payload_range` alone.
#![tactic(auto)]

ghost use Rattle.std.specs.Prelude.{◌≡◌, length};
ghost use Rattle.wire.specs.Parts.{part};
ghost use Rattle.payloads.specs.Judged.{judged};
ghost use Rattle.payloads.specs.Payload.{payload_range, part_over};

// The verdict on a frame.
#[derive(Clone, Copy)]
pub enum Verdict {
    // Kept: a number and no Refusal, since `payload_range` and `payload` promise of every number.
    // Refused; the number of the refusal, 16 or 17.
    Refused(u8),
    // A frame of another address.
    Other,
    // Kept: a number and no Option, since `prepared_verdict` and `verdict_of` answer Forward 0 also of a classifier of number 0.
    // Forwarded; the number of the matching classifier, 0 where the rule names none.
    Forward(u16),
    // No classifier that the rule names matches.
    Filtered,
}

// A part of a frame: the bytes from `start` on, up to `end` and without it.
// Kept: a struct of its own, since the library's Range is not Copy, and a caller may use the answer twice.
#[derive(Clone, Copy)]
pub struct Range {
    pub start: usize,
    pub end: usize,
}

// The range of the payload in a frame of n bytes: of a forwarded frame from 14 to its end, else empty.
#[tactic(auto, unfolding(crate::specs::Judged::judged, crate::specs::Payload::payload_range))]
pub fn payload_range(verdict: Verdict, n: usize) -> Range
    ensures { result ≡ payload_range (judged verdict) n }
{
    match verdict {
        Verdict::Forward(_) if n >= 14 => Range { start: 14, end: n },
        _ => Range { start: 0, end: 0 },
    }
}

// The part of the frame that the verdict lends back: the bytes of its range.
#[tactic(auto, using(crate::proofs::Lent::payload_range_lies))]
pub fn payload(verdict: Verdict, frame: &[u8]) -> &[u8]
    ensures { part result.ref_ptr result.now ≡ part_over (payload_range (judged verdict) (length frame.now)) frame.entry.ref_ptr frame.now }
{
    let range = payload_range(verdict, frame.len());
    &frame[range.start..range.end]
}
