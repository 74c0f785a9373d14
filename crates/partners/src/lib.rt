// Whether a value of one store meets a value of another: the same scope, name and row.
#![tactic(auto)]

ghost use Rattle.std.specs.Prelude.{◌≡◌};
ghost use Rattle.folding.specs.Folding.{same_name};
ghost use Rattle.steps.specs.Steps.{held_at};
ghost use Rattle.cells.specs.Sides.{between};
ghost use Rattle.cells.specs.Walk.{cell_of, Lies};
ghost use Rattle.partners.specs.Partners.{same_frame, meets};

use cells::{Found, Side};

// Whether the records at two offsets hold the same name.
fn same_names(here: Side<'_>, at: usize, there: Side<'_>, at2: usize) -> bool
    ensures { result ≡ same_name (held_at here.entry.store.now here.entry.area.now at) (held_at there.entry.store.now there.entry.area.now at2) }
{
    let x = steps::bytes_at(here.store, here.area, at);
    let y = steps::bytes_at(there.store, there.area, at2);
    folding::same_name(x, y)
}

// Whether two values stand in the same scope.
fn same_frame(here: Side<'_>, x: Found, there: Side<'_>, y: Found) -> bool
    requires { Lies here.store.now x × Lies there.store.now y }
    ensures { result ≡ between same_frame here.entry there.entry x.frame y.frame }
{
    if x.frame == 0 || y.frame == 0 {
        x.frame == y.frame
    } else {
        same_names(here, x.outer, there, y.outer)
    }
}

// Whether two values meet.
pub fn do_meet(here: Side<'_>, x: Found, there: Side<'_>, y: Found) -> bool
    requires { Lies here.store.now x × Lies there.store.now y }
    ensures { result ≡ between meets here.entry there.entry (cell_of x) (cell_of y) }
{
    x.row == y.row && same_names(here, x.name, there, y.name) && same_frame(here, x, there, y)
}
