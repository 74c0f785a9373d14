// A table of names of one scope: the names of a window go into it, or are found there, and those behind them are asked for.
#![tactic(auto)]

ghost use Rattle.std.specs.Prelude.{◌≡◌, ℕ};
ghost use Rattle.names.specs.Parts.{name_of};
ghost use Rattle.steps.specs.Steps.{Counted, Before};
ghost use Rattle.tables.specs.Tables.{marked_with, found_by, met_by, last_after, Entering, Starts, Owned, Passed};

use names::Named;
use slots::SLOTS;
use steps::{Met, Spot};

// The names of one scope of a store, as far as so many names of the store reach.
#[derive(Clone, Copy)]
pub struct Scope<'a> {
    pub store: &'a [u8],
    pub area: &'a [u8],
    pub number: usize,
    pub end: usize,
}

impl<'a> Scope<'a> {
    // The next name at or behind a spot, of any scope.
    #[inline(always)]
    pub fn next(self, spot: Spot) -> Option<Met<'a>>
        requires { Counted spot }
        ensures { Before self.entry.store.now self.entry.area.now self.entry.end spot result }
    {
        steps::next_before(self.store, self.area, self.end, spot)
    }
}

// What names are asked for in: marks, of many names or a few, or sorted offsets.
#[derive(Clone, Copy)]
pub enum Table<'a> {
    Marks { marks: &'a [u32; SLOTS], many: bool },
    Sorted { offsets: &'a [u32] },
}

// Whether a name of the scope may be in a table.
#[tactic(auto, unfolding(crate::specs::Tables::marked_with, crate::specs::Tables::found_by))]
fn is_met(scope: Scope<'_>, table: Table<'_>, x: Named<'_>) -> bool
    ensures { result ≡ met_by scope.entry table.entry (name_of x.entry) }
{
    x.scope == scope.number
        && match table {
            Table::Marks { marks, many } => slots::is_known(marks, many, names::hash_name(x)),
            Table::Sorted { offsets } => {
                sorted::find(scope.store, scope.area, offsets, x.bytes).is_some()
            }
        }
}

// The spot of the first name from a spot on that may be in a table, or the spot behind so many names.
pub fn pass_names(scope: Scope<'_>, table: Table<'_>, from: Spot) -> Spot
    requires { Starts scope from }
    ensures { Passed scope.entry (met_by scope.entry table.entry) from result }
{
    let mut here = from;
    while let Some(Met { name, after }) = scope.next(here) {
        if is_met(scope, table, name) {
            return here;
        }
        here = after;
    }
    here
}

// Enters a name of the scope; true where it may have been there before, or is not there then.
#[tactic(auto, using(crate::proofs::Tables::enter_other, crate::proofs::Tables::enter_met, crate::proofs::Tables::enter_new))]
fn enter(table: &mut [u32; SLOTS], many: bool, scope: usize, x: Named<'_>) -> bool
    ensures { Entering table.old many scope (name_of x.entry) result table.new }
{
    if x.scope != scope {
        return false;
    }
    let h = names::hash_name(x);
    if slots::is_known(table, many, h) {
        return true;
    }
    slots::note(table, many, h);
    !slots::is_known(table, many, h)
}

// Enters names of the scope up to one that may be there already or finds no room; its spot, or the one behind so many names. Its own loop, as
// each of these three has: what a closure did to a table is not known behind the loop that called it.
pub fn enter_names(scope: Scope<'_>, table: &mut [u32; SLOTS], many: bool, from: Spot) -> Spot
    requires { Starts scope from }
    ensures { Owned scope.entry (marked_with table.new many scope.entry.number) from result }
{
    let mut here = from;
    while let Some(Met { name, after }) = scope.next(here) {
        if enter(table, many, scope.number, name) {
            return here;
        }
        here = after;
    }
    here
}

// Behind where a name of the scope is found; none where that is not behind where the last was found.
#[tactic(auto, unfolding(crate::specs::Tables::last_after, crate::specs::Tables::past))]
fn find_next(scope: Scope<'_>, offsets: &[u32], last: usize, x: Named<'_>) -> Option<usize>
    ensures { result ≡ last_after scope.entry offsets.now last (name_of x.entry) }
{
    if x.scope != scope.number {
        return Some(last);
    }
    let at = sorted::find(scope.store, scope.area, offsets, x.bytes)?;
    if last <= at { Some(at + 1) } else { None }
}

// Finds names of the scope among offsets, each behind the one before; the spot of the first that is not, or the one behind so
// many names.
pub fn find_names(scope: Scope<'_>, offsets: &[u32], from: Spot) -> Spot
    requires { Starts scope from }
    ensures { Owned scope.entry (found_by scope.entry offsets.now) from result }
{
    let mut here = from;
    let mut last = 0;
    while let Some(Met { name, after }) = scope.next(here) {
        let Some(behind) = find_next(scope, offsets, last, name) else {
            return here;
        };
        last = behind;
        here = after;
    }
    here
}
