// The partner of a value, looked for where it is likely to stand: directly behind the last one that was found, behind the last of its column, or
// further on. What is remembered decides the time that a search takes, never its answer.
#![tactic(auto)]

ghost use Rattle.std.specs.Prelude.{◌≡◌};
ghost use Rattle.cells.specs.Sides.{between};
ghost use Rattle.cells.specs.Walk.{cell_of, Lies, Placed};
ghost use Rattle.soles.specs.Singular.{Singular};
ghost use Rattle.matching.specs.Matching.{Reached, is_for, blank, Asks, Searched, told_of, Finds};

use cells::{Found, Here, Met, Side};

// What is remembered of a column: its tag and frame, the last row that was looked for, and the spot behind that one's
// partner, if it had one.
#[derive(Clone, Copy)]
pub struct Slot {
    pub tag: usize,
    pub frame: usize,
    pub row: usize,
    pub spot: Option<Here>,
}

// A partner, with what is remembered of the column and the spot behind the last partner.
#[derive(Clone, Copy)]
pub struct Sought {
    pub partner: Option<Found>,
    pub slot: Slot,
    pub last: Here,
}

// Nothing is remembered: every search may start at the first record.
pub fn empty() -> Slot
    ensures { result ≡ blank }
{
    Slot {
        tag: 0,
        frame: 0,
        row: 0,
        spot: Some(cells::start()),
    }
}

// The first value from a spot on that a value meets, and the spot behind it.
fn search(here: Side<'_>, x: Found, there: Side<'_>, from: Here) -> Option<Met>
    requires { Lies here.store.now x × Placed there.store.now from }
    ensures { between Searched here.entry there.entry (cell_of x) from result }
{
    let mut spot = from;
    while let Some(met) = cells::next_value(there.store, spot) {
        if partners::do_meet(here, x, there, met.value) {
            return Some(met);
        }
        spot = met.after;
    }
    None
}

// Whether what is remembered is of a value's column and an earlier row.
fn is_for(slot: Slot, x: Found) -> bool
    ensures { result ≡ is_for slot (cell_of x) }
{
    slot.tag == x.tag && slot.frame == x.frame && slot.row < x.row
}

// What is remembered behind a search.
fn told(x: Found, last: Here, met: Option<Met>) -> Sought
    ensures { result ≡ told_of x last met }
{
    let slot = Slot {
        tag: x.tag,
        frame: x.frame,
        row: x.row,
        spot: None,
    };
    match met {
        Some(met) => Sought {
            partner: Some(met.value),
            slot: Slot {
                spot: Some(met.after),
                ..slot
            },
            last: met.after,
        },
        None => Sought {
            partner: None,
            slot,
            last,
        },
    }
}

// Any partner: from the last one on, and else from the first record.
fn look_ahead(here: Side<'_>, x: Found, there: Side<'_>, last: Here) -> Sought
    requires { Lies here.store.now x × Singular there.store.now there.area.now × Reached there.store.now last }
    ensures { between Finds here.entry there.entry (cell_of x) result }
{
    match search(here, x, there, last) {
        Some(met) => told(x, last, Some(met)),
        None => told(x, last, search(here, x, there, cells::start())),
    }
}

// A partner that does not stand directly behind the last one. Of a column that is remembered there is none, or it stands
// behind the spot.
fn look(here: Side<'_>, x: Found, there: Side<'_>, slot: Slot, last: Here) -> Sought
    requires { between Asks here there x slot last }
    ensures { between Finds here.entry there.entry (cell_of x) result }
{
    if !is_for(slot, x) {
        return look_ahead(here, x, there, last);
    }
    match slot.spot {
        Some(spot) => told(x, last, search(here, x, there, spot)),
        None => Sought {
            partner: None,
            slot,
            last,
        },
    }
}

// The partner of a value, and what is remembered then.
pub fn find(here: Side<'_>, x: Found, there: Side<'_>, slot: Slot, last: Here) -> Sought
    requires { between Asks here there x slot last }
    ensures { between Finds here.entry there.entry (cell_of x) result }
{
    match cells::next_value(there.store, last) {
        Some(met) if partners::do_meet(here, x, there, met.value) => Sought {
            partner: Some(met.value),
            slot,
            last: met.after,
        },
        _ => look(here, x, there, slot, last),
    }
}
