// The refusals, each with its number as docs/RULE.md has it. A function that may refuse answers a `Result` whose error is one of these, or holds one.
#![tactic(auto)]

ghost use Rattle.std.specs.Prelude.{◌≡◌};
ghost use Rattle.refusals.specs.Refusals.{refusal_number, outcome_number};

// Why something is refused. As a number each is what C and the frames are told.
#[derive(Clone, Copy, Debug, PartialEq, Eq)]
pub enum Refusal {
    // a name or query is empty
    Empty = 1,
    // it is longer than it may be
    TooLong = 2,
    // it holds a 0 byte
    ZeroByte = 3,
    // the measure is not one of the four
    BadMeasure = 4,
    // the threshold is not p / q with 1 ≤ p ≤ q ≤ 1000
    BadThreshold = 5,
    // the index is not good
    BadIndex = 6,
    // the search needs more touches than its allowance
    OverAllowance = 7,
    // what is written has no room
    NoRoom = 8,
    // an id is not above the one before it, or is live
    TakenId = 9,
    // there are more names, or lines, than there may be
    TooMany = 10,
    // a line is not a frame of its kind
    Malformed = 11,
    // a name or query holds a control character other than 0
    ControlCharacter = 12,
    // an id is not live
    NotLive = 13,
}

impl Refusal {
    // The number of a refusal.
    pub fn number(self) -> u8
        ensures { result ≡ refusal_number self }
    {
        self as u8
    }
}

// A refusal, and the line that it is about, from 1, or 0 where it is about none.
#[derive(Clone, Copy, Debug, PartialEq, Eq)]
pub struct LineRefusal {
    pub refusal: Refusal,
    pub line: u32,
}

// The number of an outcome: 0, or that of the refusal.
pub fn number_in(outcome: Result<(), Refusal>) -> u8
    ensures { result ≡ outcome_number outcome }
{
    match outcome {
        Ok(()) => 0,
        Err(refusal) => refusal.number(),
    }
}
