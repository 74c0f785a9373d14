// The grammar over tokens is a definition alone (specs/); what a text is refused for is said here once, for every reader above.
#![tactic(auto)]

ghost use Rattle.std.specs.Prelude.{◌≡◌};
ghost use Rattle.grammar.specs.Causes.{cause_number, cause_detail, fault, flawed};

use lines::Flaw;

// What a text is refused for at a place in it, 2 to 9, and in the strict reading 15 to 18. The reason says why no value stands behind a tag, or where the loop directly
// before ended; 0 where none stands there.
#[derive(Clone, Copy)]
pub enum Cause {
    NotAscii,
    NoData,
    OpenFrame,
    Ragged { remainder: usize },
    NoValue { reason: usize },
    NoItem { reason: usize },
    NoNames,
    OverLimit,
    NotParted,
    LongLine,
    BadName,
    ControlByte,
}

// What a text is refused for, and the offset of that.
#[derive(Clone, Copy)]
pub struct Fault {
    pub cause: Cause,
    pub at: usize,
}

impl Cause {
    // The same at an offset.
    pub fn at(self, at: usize) -> Fault
        ensures { result ≡ fault self at }
    {
        Fault { cause: self, at }
    }

    // Document 01's number, and 02's.
    pub fn number(self) -> usize
        ensures { result ≡ cause_number self }
    {
        match self {
            Cause::NotAscii => 2,
            Cause::NoData => 3,
            Cause::OpenFrame => 4,
            Cause::Ragged { .. } => 5,
            Cause::NoValue { .. } => 6,
            Cause::NoItem { .. } => 7,
            Cause::NoNames => 8,
            Cause::OverLimit => 9,
            Cause::NotParted => 15,
            Cause::LongLine => 16,
            Cause::BadName => 17,
            Cause::ControlByte => 18,
        }
    }

    // Document 01's detail, and 02's.
    pub fn detail(self) -> usize
        ensures { result ≡ cause_detail self }
    {
        match self {
            Cause::Ragged { remainder } => remainder,
            Cause::NoValue { reason } | Cause::NoItem { reason } => reason,
            Cause::NotAscii
            | Cause::NoData
            | Cause::OpenFrame
            | Cause::NoNames
            | Cause::OverLimit
            | Cause::NotParted
            | Cause::LongLine
            | Cause::BadName
            | Cause::ControlByte => 0,
        }
    }
}

// A line that is too long is 16, a control byte 18.
impl From<Flaw> for Fault {
    ghost from_gives = { λ flaw given. given ≡ flawed flaw };

    fn from(flaw: Flaw) -> Fault {
        match flaw {
            Flaw::LongLine { at } => Cause::LongLine.at(at),
            Flaw::Control { at } => Cause::ControlByte.at(at),
        }
    }
}
