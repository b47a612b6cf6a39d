// Why something is refused: document 01's refusals 1 to 18, document 02's 19 to 21, and the library's own for a listing.
//
// `Refusal` has a name for each, and its method `number` the number by which papers, logs and hosts in C know it. `Fault` is a refusal
// and the place that it is about. Every reason is listed here, so that a number stands once.
#![tactic(auto)]

ghost use Rattle.std.specs.Prelude.{◌≡◌};
ghost use Rattle.refusals.specs.Refusals.{number_of};

// Why something is refused, in the order of the numbers.
#[derive(Clone, Copy, PartialEq, Eq)]
pub enum Refusal {
    // 1: a lent buffer is under 24,000 bytes.
    ShortBuffer,
    // 2: a body is under 3 bytes.
    ShortBody,
    // 3: a body is over 1,500 bytes, or a message over 23,952.
    TooLong,
    // 4: the number of pieces is not 1 to 16.
    PieceCount,
    // 5: the piece's number is not 1 to the number of pieces.
    PieceNumber,
    // 6: one byte is left where an element begins.
    CutHead,
    // 7: a length byte of 255.
    Length255,
    // 8: a value that passes the end of its row.
    PastEnd,
    // 9: a second copy of a type that does not repeat.
    SecondCopy,
    // 10: a length other than the type's.
    WrongLength,
    // 11: a value that the type does not allow.
    BadValue,
    // 12: more entries than the type's list has room for.
    Full,
    // 13: a row ends without an element that it must have.
    MissingElement,
    // 14: the number of a rule or of a classifier, a second time.
    NumberTaken,
    // 15: a rule names a classifier number that no classifier carries.
    Unanswered,
    // 16: a frame is under 14 or over 1,518 bytes.
    FrameLength,
    // 17: no rule fits the client.
    NoRule,
    // 18: the clock went back.
    ClockBack,
    // 19: no message reads to the table.
    CannotProduce,
    // 20: the bodies do not fit the output.
    ShortOutput,
    // 21: a strict collection was cut inside an element.
    BadCut,
    // 100, the library's own: a buffer for a listing is under 3,755 bytes.
    ShortListing,
}

// A refusal, and the offset that it is about.
#[derive(Clone, Copy, PartialEq, Eq)]
pub struct Fault {
    pub refusal: Refusal,
    pub offset: usize,
}

impl Refusal {
    // The number of the refusal.
    #[tactic(auto, unfolding(crate::specs::Refusals::number_of))]
    pub fn number(self) -> u8
        ensures { result ≡ number_of self }
    {
        match self {
            Refusal::ShortBuffer => 1,
            Refusal::ShortBody => 2,
            Refusal::TooLong => 3,
            Refusal::PieceCount => 4,
            Refusal::PieceNumber => 5,
            Refusal::CutHead => 6,
            Refusal::Length255 => 7,
            Refusal::PastEnd => 8,
            Refusal::SecondCopy => 9,
            Refusal::WrongLength => 10,
            Refusal::BadValue => 11,
            Refusal::Full => 12,
            Refusal::MissingElement => 13,
            Refusal::NumberTaken => 14,
            Refusal::Unanswered => 15,
            Refusal::FrameLength => 16,
            Refusal::NoRule => 17,
            Refusal::ClockBack => 18,
            Refusal::CannotProduce => 19,
            Refusal::ShortOutput => 20,
            Refusal::BadCut => 21,
            Refusal::ShortListing => 100,
        }
    }
}
