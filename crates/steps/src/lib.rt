// The walk from name to name through a store, and the name of the record at an offset. Store and area come as two slices, as they do from
// C: a struct of both would be taken apart again in each contract.
#![tactic(auto)]

ghost use Rattle.std.specs.Prelude.{◌≡◌, ℕ, ◌+◌, ◌^◌, ◌<◌};
ghost use Rattle.contents.specs.Contents.{content_bytes};
ghost use Rattle.names.specs.Parts.{name_of};
ghost use Rattle.steps.specs.Steps.{name_in, Counted, first, behind, Ahead, Before, held_at};

use entries::Entry;
use names::Named;

// Where a walk stands: the offset, number, block and scope of a record, and how many names stand before it.
#[derive(Clone, Copy, Default)]
pub struct Spot {
    pub at: usize,
    pub number: usize,
    pub block: usize,
    pub scope: usize,
    pub count: usize,
}

// A step of the walk: the next name, and the spot behind it.
#[derive(Clone, Copy)]
pub struct Met<'a> {
    pub name: Named<'a>,
    pub after: Spot,
}

// What a record holds of the area; what would reach past it ends there.
fn content<'a>(area: &'a [u8], entry: Entry) -> &'a [u8]
    ensures { result.now ≡ content_bytes area.now entry.kind entry.fields }
{
    let from = (entry.fields.number as usize).min(area.len());
    let length = (entry.fields.token.length as usize).saturating_sub(entry.kind.marks());
    &area[from..from + length.min(area.len() - from)]
}

// The name that a record at a spot holds.
fn name_in<'a>(area: &'a [u8], entry: Entry, spot: Spot) -> Named<'a>
    ensures { name_of result ≡ name_in area.now entry spot }
{
    Named {
        at: spot.at,
        number: spot.number,
        scope: spot.scope,
        bytes: content(area, entry),
    }
}

// The spot behind a record that holds no name.
fn behind(entry: Entry, spot: Spot) -> Spot
    requires { spot.number + 1 < 2 ^ 64 }
    ensures { result ≡ behind entry spot }
{
    let kind = entry.kind.number();
    Spot {
        at: entry.next,
        number: spot.number + 1,
        block: names::block_after(kind, spot.number, spot.block),
        scope: names::scope_after(kind, spot.number, spot.block, spot.scope),
        count: spot.count,
    }
}

// The next name at or behind a spot. Inline, here and below, where a walk over many names is made of it: a call would hand each name and
// each spot over through memory.
#[inline(always)]
pub fn next_name<'a>(store: &[u8], area: &'a [u8], spot: Spot) -> Option<Met<'a>>
    requires { Counted spot }
    ensures { Ahead store.now area.now spot result }
{
    let mut here = spot;
    while let Some(entry) = entries::read_record(store, here.at) {
        let after = behind(entry, here);
        if names::is_name(entry.kind.number()) {
            return Some(Met {
                name: name_in(area, entry, here),
                after: Spot {
                    count: here.count + 1,
                    ..after
                },
            });
        }
        here = after;
    }
    None
}

// The next name at or behind a spot with fewer than so many names before it.
#[inline(always)]
pub fn next_before<'a>(store: &[u8], area: &'a [u8], end: usize, spot: Spot) -> Option<Met<'a>>
    requires { Counted spot }
    ensures { Before store.now area.now end spot result }
{
    if spot.count < end {
        next_name(store, area, spot)
    } else {
        None
    }
}

// The spot of the first record.
pub fn start() -> Spot
    ensures { result ≡ first }
{
    Spot::default()
}

// The bytes of the name of the record at an offset; none where no record stands.
pub fn bytes_at<'a>(store: &[u8], area: &'a [u8], at: usize) -> &'a [u8]
    ensures { result.now ≡ held_at store.now area.now at }
{
    match entries::read_record(store, at) {
        Some(entry) => content(area, entry),
        None => &[],
    }
}
