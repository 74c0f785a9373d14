// Whose rules a text is read by. Where they differ a definition, or a function, goes by cases on the reading; all else
// is said once.
#![tactic(auto)]

ghost use Rattle.std.specs.Prelude.{◌≡◌};
ghost use Rattle.rules.specs.Rules.{named};

// The reading that a call names: document 01's own, or the standard's (document 02, Three).
#[derive(Clone, Copy)]
pub enum Reading {
    First,
    Strict,
}

impl Reading {
    // The reading that a number names, if it names one.
    pub fn of(number: u64) -> Option<Reading>
        ensures { result ≡ named number }
    {
        match number {
            1 => Some(Reading::First),
            2 => Some(Reading::Strict),
            _ => None,
        }
    }
}
