// The list of changes, one store's values after the other: counted, and written.
#![tactic(auto)]

ghost use Rattle.std.specs.Prelude.{◌≡◌, true, false, ◌+◌, ◌≤◌, length};
ghost use Rattle.records.specs.Put.{put};
ghost use Rattle.cells.specs.Sides.{between};
ghost use Rattle.cells.specs.Walk.{cell_of, Lies};
ghost use Rattle.changes.specs.Changes.{listed, of_side, side_of, change_bytes, changes_bytes, Partnered};
ghost use Rattle.changes.specs.Steps.{Comparable, outset, Walks, Stepped};

use cells::{Found, Here, Met, Side};
use matching::Slot;
use number_cases::Case;

// An entry: the case, and the numbers of the records, 0 where there is none.
#[derive(Clone, Copy)]
pub struct Change {
    pub case: Case,
    pub old: usize,
    pub new: usize,
}

// The bytes of an entry.
pub const ENTRY: usize = 17;

// How many columns are remembered at a time, in 13 KiB of stack, where a walk borrows them, so that it is moved without them;
// the two functions that have them are never made part of one that also calls the name check, whose table takes 48 KiB.
const SLOTS: usize = 128;

// Where a walk over the values of one store stands, the spot behind the last partner in the other, and what is remembered
// of some columns, which is lent.
#[derive(Drop)]
struct Walk<'s> {
    here: Here,
    last: Here,
    slots: &'s mut [Slot; SLOTS],
}

// The entry of a value of the old store.
fn of_old(here: Side<'_>, x: Found, there: Side<'_>, partner: Option<Found>) -> Option<Change>
    requires { between Comparable here there × Lies here.store.now x × between Partnered here there x partner }
    ensures { listed result ≡ between (of_side true) here.entry there.entry (cell_of x) }
{
    let Some(y) = partner else {
        return Some(Change {
            case: Case::OnlyOld,
            old: x.number,
            new: 0,
        });
    };
    match cases::case_of(here, x.at, there, y.at) {
        Case::Same => None,
        case => Some(Change {
            case,
            old: x.number,
            new: y.number,
        }),
    }
}

// The entry of a value of the new store.
fn of_new(here: Side<'_>, x: Found, there: Side<'_>, partner: Option<Found>) -> Option<Change>
    requires { between Partnered here there x partner }
    ensures { listed result ≡ between (of_side false) here.entry there.entry (cell_of x) }
{
    match partner {
        Some(_) => None,
        None => Some(Change {
            case: Case::OnlyNew,
            old: 0,
            new: x.number,
        }),
    }
}

// The entry of a value of either. A closure in place of the switch would have to bring the facts that this one asks.
fn of_side(
    old: bool,
    here: Side<'_>,
    x: Found,
    there: Side<'_>,
    partner: Option<Found>,
) -> Option<Change>
    requires { between Comparable here there × Lies here.store.now x × between Partnered here there x partner }
    ensures { listed result ≡ between (of_side old) here.entry there.entry (cell_of x) }
{
    if old {
        of_old(here, x, there, partner)
    } else {
        of_new(here, x, there, partner)
    }
}

impl<'s> Walk<'s> {
    // Nothing is passed over.
    fn start(slots: &'s mut [Slot; SLOTS]) -> Walk<'s>
        ensures { result ≡ outset slots.entry }
    {
        Walk {
            here: cells::start(),
            last: cells::start(),
            slots,
        }
    }

    // The next entry.
    fn next(&mut self, old: bool, here: Side<'_>, there: Side<'_>) -> Option<Change>
        requires { between Comparable here there × between Walks here there self.old }
        ensures { between (Stepped old) here.entry there.entry self.old result self.new }
    {
        while let Some(Met { value, after }) = cells::next_value(here.store, self.here) {
            let column = value.tag % SLOTS;
            let sought = matching::find(here, value, there, self.slots[column], self.last);
            self.slots[column] = sought.slot;
            self.last = sought.last;
            self.here = after;
            if let Some(change) = of_side(old, here, value, there, sought.partner) {
                return Some(change);
            }
        }
        None
    }
}

// How many bytes the entries of a store's values take.
#[inline(never)]
pub fn count_side(old: bool, here: Side<'_>, there: Side<'_>) -> usize
    requires { between Comparable here there }
    ensures { result ≡ length (changes_bytes (between (side_of old) here.entry there.entry)) }
{
    let mut slots = [matching::empty(); SLOTS];
    let mut walk = Walk::start(&mut slots);
    let mut total = 0;
    while let Some(_) = walk.next(old, here, there) {
        total += ENTRY;
    }
    total
}

// An entry's bytes from an offset on.
fn put_entry(list: &mut [u8], at: usize, change: Change)
    requires { at + 17 ≤ length list.old }
    ensures { list.new ≡ put at (change_bytes change) list.old }
{
    records::put_u8(list, at, change.case.number());
    records::put_u64(list, at + 1, change.old as u64);
    records::put_u64(list, at + 9, change.new as u64);
}

// The entries of a store's values, from an offset on.
#[inline(never)]
pub fn write_side(old: bool, here: Side<'_>, there: Side<'_>, list: &mut [u8], from: usize)
    requires { between Comparable here there × (from + length (changes_bytes (between (side_of old) here there)) ≤ length list.old) }
    ensures { list.new ≡ put from (changes_bytes (between (side_of old) here.entry there.entry)) list.old }
{
    let mut slots = [matching::empty(); SLOTS];
    let mut walk = Walk::start(&mut slots);
    let mut at = from;
    while let Some(change) = walk.next(old, here, there) {
        put_entry(list, at, change);
        at += ENTRY;
    }
}
