// Names of one scope, compared with each other a window at a time: the window's own names go into a table, and all behind it are looked for there.
#![tactic(auto)]

ghost use Rattle.std.specs.Prelude.{ℕ, ◌≤◌, ◌<◌};
ghost use Rattle.tables.specs.Tables.{Starts};
ghost use Rattle.windows.specs.Windows.{Windowed, Ran};

use names::Named;
use slots::SLOTS;
use steps::{Met, Spot};
use tables::{Scope, Table};

// What a window reached: the spot behind its own names, and the one behind those that were looked for among them.
#[derive(Clone, Copy)]
struct Reach {
    own: Spot,
    end: Spot,
}

// So many names are enough for a window by marks.
const ENOUGH: usize = 4096;

// Up to so many names are a few.
const FEW: usize = 256;

// A window by marks.
fn by_marks(scope: Scope<'_>, table: &mut [u32; SLOTS], many: bool, from: Spot) -> Reach
    requires { Starts scope from }
    ensures { Windowed scope.entry from result }
{
    slots::clear(table, many);
    let own = tables::enter_names(scope, table, many, from);
    let end = tables::pass_names(scope, Table::Marks { marks: table, many }, own);
    Reach { own, end }
}

// Keeps the offset of a name of the scope behind n others; how many there are then.
fn keep(table: &mut [u32; SLOTS], n: usize, scope: usize, x: Named<'_>) -> usize
    requires { n < 12288 }
    ensures { result ≤ 12288 }
{
    if x.scope != scope {
        return n;
    }
    let Ok(at) = u32::try_from(x.at) else {
        return n;
    };
    table[n] = at;
    n + 1
}

// Fills the table with the offsets of names of the scope; how many.
fn gather(scope: Scope<'_>, table: &mut [u32; SLOTS], from: Spot) -> usize
    requires { Starts scope from }
    ensures { result ≤ 12288 }
{
    let mut here = from;
    let mut n = 0;
    // `n` counts the names that were kept, not those that were passed.
    while n < SLOTS {
        let Some(Met { name, after }) = scope.next(here) else {
            return n;
        };
        n = keep(table, n, scope.number, name);
        here = after;
    }
    n
}

// A window by order.
fn by_order(scope: Scope<'_>, table: &mut [u32; SLOTS], from: Spot) -> Reach
    requires { Starts scope from }
    ensures { Windowed scope.entry from result }
{
    let n = gather(scope, table, from);
    sorted::sort(scope.store, scope.area, &mut table[..n]);
    let offsets = &table[..n];
    let own = tables::find_names(scope, offsets, from);
    let end = tables::pass_names(scope, Table::Sorted { offsets }, own);
    Reach { own, end }
}

// Whether marks were enough for a window: no name was met again before the end, and not too few names are its own.
fn is_enough(from: Spot, reach: Reach, end: usize) -> bool {
    end <= reach.end.count
        && (end <= reach.own.count || ENOUGH <= reach.own.count.saturating_sub(from.count))
}

// A window: by marks, and where they are not enough, by order.
fn window(scope: Scope<'_>, table: &mut [u32; SLOTS], many: bool, from: Spot) -> Reach
    requires { Starts scope from }
    ensures { Windowed scope.entry from result }
{
    let reach = by_marks(scope, table, many, from);
    if is_enough(from, reach, scope.end) {
        reach
    } else {
        by_order(scope, table, from)
    }
}

// A spot up to which no name of the scope repeats one from here on: that of the first repeat, or the one behind so many names.
pub fn compare(scope: Scope<'_>, table: &mut [u32; SLOTS], from: Spot) -> Spot
    requires { Starts scope from }
    ensures { Ran scope.entry from result }
{
    let many = FEW < scope.end - from.count;
    let mut here = from;
    let mut stop = scope.end;
    loop {
        let Reach { own, end: last } = window(Scope { end: stop, ..scope }, table, many, here);
        if last.count <= own.count {
            return last;
        }
        if own.count <= here.count {
            return here;
        }
        stop = last.count;
        here = own;
    }
}
