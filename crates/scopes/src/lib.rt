// The names of a store by scopes, block by block: those of each frame are compared with each other, and so are the block's own.
#![tactic(auto)]

ghost use Rattle.std.specs.Prelude.{◌≡◌, ◌||◌, ℕ, eqb, ltb};
ghost use Rattle.steps.specs.Steps.{Reached};
ghost use Rattle.scopes.specs.Scopes.{Stretch, Framed, Frames, Fresh};

use slots::SLOTS;
use steps::{Met, Spot};
use tables::Scope;

// How far the names of a block got: the spot behind them, and the highest of their scopes.
#[derive(Clone, Copy)]
struct Blocked {
    end: Spot,
    top: usize,
}

// The spot behind the names of a scope that stand together from a spot on.
fn stretch(store: &[u8], area: &[u8], scope: usize, from: Spot) -> Spot
    requires { Reached store.now area.now from }
    ensures { Stretch store.now area.now scope from result }
{
    let mut here = from;
    while let Some(Met { name, after }) = steps::next_name(store, area, here) {
        if name.scope != scope {
            return here;
        }
        here = after;
    }
    here
}

// The spot of the first repeat in a frame, or the one behind it.
fn frame(store: &[u8], area: &[u8], table: &mut [u32; SLOTS], number: usize, from: Spot) -> Spot
    requires { Reached store.now area.now from }
    ensures { Framed store.now area.now number from result }
{
    let end = stretch(store, area, number, from).count;
    let scope = Scope {
        store,
        area,
        number,
        end,
    };
    windows::compare(scope, table, from)
}

// The spot of the first repeat in a frame of a block, or the one behind the block. A frame's scope is above those before it.
fn frames(store: &[u8], area: &[u8], table: &mut [u32; SLOTS], block: usize, from: Spot) -> Blocked
    requires { Reached store.now area.now from }
    ensures { Frames store.now area.now block from result }
{
    let mut here = from;
    let mut top = block;
    loop {
        let first = stretch(store, area, block, here);
        let scope = match steps::next_name(store, area, first) {
            Some(Met { name, after }) if after.block == block && top < name.scope => name.scope,
            _ => return Blocked { end: first, top },
        };
        let last = frame(store, area, table, scope, first);
        if last.count <= first.count {
            return Blocked { end: first, top };
        }
        top = scope;
        here = last;
    }
}

// Whether no name so far is of a block's scope or of one above it, where the highest of their scopes is known.
fn is_behind(count: usize, top: usize, block: usize) -> bool
    ensures { result ≡ (eqb count 0 || ltb top block) }
{
    count == 0 || top < block
}

// A spot up to which no name is a repeat: that of the earliest repeat, or the one behind all names.
pub fn fresh_end(store: &[u8], area: &[u8]) -> Spot
    ensures { Fresh store.now area.now result }
{
    let mut table = [0u32; SLOTS];
    let mut here = steps::start();
    let mut top = 0;
    while let Some(Met { name: _, after }) = steps::next_name(store, area, here) {
        let block = after.block;
        if !is_behind(here.count, top, block) {
            return here;
        }
        let all = frames(store, area, &mut table, block, here);
        let end = all.end;
        let own = Scope {
            store,
            area,
            number: block,
            end: end.count,
        };
        let last = windows::compare(own, &mut table, here);
        if last.count < end.count {
            return last;
        }
        if end.count <= here.count {
            return here;
        }
        top = all.top;
        here = end;
    }
    here
}
