// The name check: within one scope no name stands twice.
#![tactic(auto)]

ghost use Rattle.std.specs.Prelude.{◌≡◌, ℕ, List, Option, drop, take};
ghost use Rattle.names.specs.Names.{Name};
ghost use Rattle.names.specs.Parts.{name_of};
ghost use Rattle.naming.specs.Names.{first_same, repeat_from, naming_of, name_check, naming_report};
ghost use Rattle.naming.specs.Search.{maybe, Tells, Follows};

use names::Named;
use places::Report;
use rules::Reading;
use steps::Spot;

// What the name check refuses: a store that is not sound; a name that stands twice, with the numbers of both records.
#[derive(Clone, Copy)]
pub enum NameError {
    NotSound,
    Repeated { first: usize, again: usize },
}

// The answer in document 01's numbers: 0, 12 or 13.
#[tactic(auto, unfolding(crate::specs::Names::naming_report))]
pub fn report(answer: Result<(), NameError>) -> Report
    ensures { result ≡ naming_report answer }
{
    match answer {
        Ok(()) => Report::bare(0),
        Err(NameError::NotSound) => Report::bare(12),
        Err(NameError::Repeated { first, again }) => Report::records(13, first, again),
    }
}

// Where a walk from name to name of a store stands.
pub trait Walk: Copy {
    // The names from here on, what is known of a place that the walk comes to, and how many names stand before it.
    ghost rest: { List ℕ → List ℕ → Self → List Name };

    ghost ready: { Self → Type 0 };

    ghost passed: { Self → ℕ };

    // The next name, and where the walk stands behind it.
    fn next<'a>(self, store: &[u8], area: &'a [u8]) -> Option<(Named<'a>, Self)>
        requires { ready self }
        ensures { Tells (rest store.now area.now) ready passed self result };

    fn passed(self) -> usize
        ensures { result ≡ passed self };
}

// The first of so many names that is the same as x.
fn first_same<W: Walk>(
    store: &[u8],
    area: &[u8],
    start: W,
    x: Named<'_>,
    count: usize,
) -> Option<usize>
    requires { W.ready start }
    ensures { result ≡ maybe (first_same (take count (W.rest store.now area.now start)) (name_of x.entry)) }
{
    let mut here = start;
    for _passed in 0..count {
        let met = here.next(store, area)?;
        let (name, after) = met;
        if names::same_both(name, x) {
            return Some(name.number);
        }
        here = after;
    }
    None
}

// The earliest repeat from a place of the walk on, each name looked for among all before it.
pub fn first_repeat<W: Walk>(store: &[u8], area: &[u8], start: W, from: W) -> Result<(), NameError>
    requires { Follows (W.rest store.now area.now) W.ready W.passed start from }
    ensures { result ≡ naming_of (repeat_from (take (W.passed from) (W.rest store.now area.now start)) (W.rest store.now area.now from)) }
{
    let mut here = from;
    while let Some(met) = here.next(store, area) {
        let (name, after) = met;
        if let Some(first) = first_same(store, area, start, name, here.passed()) {
            let again = name.number;
            return Err(NameError::Repeated { first, again });
        }
        here = after;
    }
    Ok(())
}

impl Walk for Spot {
    ghost use Rattle.steps.specs.Steps.{names_at, Counted};

    ghost rest = { names_at };

    ghost ready = { Counted };

    ghost passed = { λ s. s.count };

    fn next<'a>(self, store: &[u8], area: &'a [u8]) -> Option<(Named<'a>, Spot)> {
        let met = steps::next_name(store, area, self)?;
        Some((met.name, met.after))
    }

    fn passed(self) -> usize {
        self.count
    }
}

// The service Name check: 12, 13.
pub fn check_names(reading: Reading, store: &[u8], area: &[u8]) -> Result<(), NameError>
    ensures { result ≡ name_check reading store.now area.now }
{
    if !stores::is_sound(reading, store, area) {
        return Err(NameError::NotSound);
    }
    first_repeat(store, area, steps::start(), scopes::fresh_end(store, area))
}
