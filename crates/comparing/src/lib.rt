// Compare: what changed from one store to another.
#![tactic(auto)]

ghost use Rattle.std.specs.Prelude.{◌≡◌};
ghost use Rattle.cells.specs.Sides.{between};
ghost use Rattle.changes.specs.Steps.{Comparable};
ghost use Rattle.comparing.specs.Comparing.{judged, refusal_of, comparing_report, Compares};
ghost use Rattle.comparing.specs.Steps.{of_names, earlier_of, Writes};

use cells::Side;
use naming::NameError;
use places::Report;
use rules::Reading;

// Why there is no list: 12; 13 with two record numbers; 10 with the length needed.
#[derive(Clone, Copy)]
pub enum CompareError {
    NotSound,
    Repeated { first: usize, again: usize },
    NoRoom { needed: usize },
}

// What the name check refuses, in Compare's words.
impl From<NameError> for CompareError {
    ghost from_gives = { λ names error. error ≡ of_names names };

    #[tactic(auto, unfolding(crate::specs::Steps::of_names))]
    fn from(names: NameError) -> CompareError {
        match names {
            NameError::NotSound => CompareError::NotSound,
            NameError::Repeated { first, again } => CompareError::Repeated { first, again },
        }
    }
}

// The answer in document 01's numbers.
#[tactic(auto, unfolding(crate::specs::Comparing::comparing_report, places::specs::Reports::success, places::specs::Reports::no_room))]
pub fn report(answer: Result<usize, CompareError>) -> Report
    ensures { result ≡ comparing_report answer }
{
    match answer {
        Ok(length) => Report::lengths(0, length, 0),
        Err(CompareError::NotSound) => Report::bare(12),
        Err(CompareError::Repeated { first, again }) => Report::records(13, first, again),
        Err(CompareError::NoRoom { needed }) => Report::lengths(10, needed, 0),
    }
}

// The earlier of what two searches of one store found.
#[tactic(auto, unfolding(crate::specs::Steps::earlier_of))]
fn earlier_of(tags: Result<(), NameError>, frames: Result<(), NameError>) -> Result<(), NameError>
    ensures { result ≡ earlier_of tags frames }
{
    match (tags, frames) {
        (Ok(()), _) | (Err(NameError::Repeated { .. }), Err(NameError::NotSound)) => frames,
        (Err(NameError::Repeated { again: tag, .. }), Err(NameError::Repeated { again: frame, .. }))
            if frame < tag => frames,
        _ => tags,
    }
}

// One store by itself: 12, 13, or neither.
fn judge(reading: Reading, store: &[u8], area: &[u8]) -> Result<(), NameError>
    ensures { result ≡ judged reading store.now area.now }
{
    if !frames::is_single(store) {
        return Err(NameError::NotSound);
    }
    let tags = naming::check_names(reading, store, area);
    earlier_of(tags, frames::check_frames(store, area))
}

// What both say: 12 of either before 13 of either.
#[tactic(auto, unfolding(crate::specs::Comparing::refusal_of))]
fn refusal(old: Result<(), NameError>, new: Result<(), NameError>) -> Result<(), NameError>
    ensures { result ≡ refusal_of old new }
{
    match (old, new) {
        (Ok(()), _) | (Err(NameError::Repeated { .. }), Err(NameError::NotSound)) => new,
        _ => old,
    }
}

// The list, where it has room.
fn write_list(old: Side<'_>, new: Side<'_>, list: &mut [u8]) -> Result<usize, CompareError>
    requires { between Comparable old new × between Comparable new old }
    ensures { between Writes old.entry new.entry list.old result list.new }
{
    let first = changes::count_side(true, old, new);
    let second = changes::count_side(false, new, old);
    let needed = first + second;
    if list.len() < needed {
        return Err(CompareError::NoRoom { needed });
    }
    changes::write_side(true, old, new, list, 0);
    changes::write_side(false, new, old, list, first);
    Ok(needed)
}

// COMPARE: 12, 13, 10. The list is lent; a refusal writes nothing.
// Stores and areas come as they are lent: sides, built by each caller, would be no plainer.
pub fn compare(
    reading: Reading,
    store: &[u8],
    area: &[u8],
    store2: &[u8],
    area2: &[u8],
    list: &mut [u8],
) -> Result<usize, CompareError>
    ensures { Compares reading store.now area.now store2.now area2.now list.old result list.new }
{
    let judged = judge(reading, store, area);
    refusal(judged, judge(reading, store2, area2))?;
    let old = Side { store, area };
    let new = Side {
        store: store2,
        area: area2,
    };
    write_list(old, new, list)
}
