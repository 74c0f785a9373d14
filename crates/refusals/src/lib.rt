// What a text is refused for, in an enum and in document 01's numbers.
#![tactic(auto)]

ghost use Rattle.std.specs.Prelude.{◌≡◌};
ghost use Rattle.refusals.specs.Answers.{refusal_report};

use grammar::Cause;
use places::{Place, Report};

// What a text is refused for, 1 to 9: only 1 has no place.
#[derive(Clone, Copy)]
pub enum Refusal {
    TooLong,
    At { cause: Cause, place: Place },
}

impl Refusal {
    // The refusal in document 01's numbers.
    pub fn report(self) -> Report
        ensures { result ≡ refusal_report self }
    {
        match self {
            Refusal::TooLong => Report::bare(1),
            Refusal::At { cause, place } => Report::at(cause.number(), place, cause.detail()),
        }
    }
}
