// What one item or one heading of a text comes to in the block and in a frame.
#![tactic(auto)]

ghost use Rattle.std.specs.Prelude.{◌≡◌, ◌≤◌, length};
ghost use Rattle.items.specs.Answers.{Ready, Here, item_at};
ghost use Rattle.decisions.specs.Onward.{absent_of, in_block_of, in_frame_of, heading_of};

use grammar::{Cause, Fault};
use items::Item;
use rules::Reading;
use sizes::Sizes;

// An item, a heading or a frame of the block that is read: the offset behind it and the space and comments there, the room
// for its records, and why its list of values ended if it is a loop: by its number, or 0, since `absent` and `in_block` promise
// their 7 for any number, and an Option of a Why would ask more of who calls them.
#[derive(Clone, Copy)]
pub struct Step {
    pub next: usize,
    pub sizes: Sizes,
    pub reason: usize,
}

// What an item is in a frame: read; or dropped, with the offset where it stopped.
#[derive(Clone, Copy)]
pub enum Inside {
    Read { next: usize, sizes: Sizes },
    Dropped { stop: usize },
}

impl Step {
    // What a 7 says where no loop of the block stands directly before: nothing.
    pub const BEHIND_HEADING: usize = 0;

    const BEHIND_VALUE: usize = 0;
}

// No item starts at an offset: 7, or 15 where the reading asks for space before what stands there.
pub fn absent(reading: Reading, s: &[u8], at: usize, reason: usize) -> Fault
    requires { at ≤ length s.now }
    ensures { result ≡ absent_of reading s.now reason at }
{
    if columns::is_parted(reading, s, at) {
        return Cause::NoItem { reason }.at(at);
    }
    Cause::NotParted.at(at)
}

// What the item at an offset comes to in the block: whatever is not read ends the reading, and a 7 says why the loop directly
// before it ended.
pub fn in_block(reading: Reading, s: &[u8], at: usize, reason: usize) -> Result<Step, Fault>
    requires { Here s.now at }
    ensures { result ≡ in_block_of reading s.now reason (item_at reading s.now at) }
{
    match items::parse_data_item(reading, s, at)? {
        Item::Loop { next, sizes, why } => Ok(Step {
            next,
            sizes,
            reason: why.number(),
        }),
        Item::Single { next, sizes } => Ok(Step {
            next,
            sizes,
            reason: Step::BEHIND_VALUE,
        }),
        Item::Failed { fault, .. } => Err(fault),
        Item::Absent { at: here } => Err(absent(reading, s, here, reason)),
    }
}

// What an item comes to in a frame: one that fails in the first reading, and one that is none, is dropped; all else that is not
// read ends the reading.
pub fn in_frame(item: Result<Item, Fault>) -> Result<Inside, Fault>
    ensures { result ≡ in_frame_of item }
{
    let item = item?;
    match item {
        Item::Loop { next, sizes, .. } | Item::Single { next, sizes } => {
            Ok(Inside::Read { next, sizes })
        }
        Item::Failed { stop, .. } => Ok(Inside::Dropped { stop }),
        Item::Absent { at } => Ok(Inside::Dropped { stop: at }),
    }
}

// The heading at an offset, of a block or a frame: its word, if its name may stand.
// (A kind by its number: a `Kind` would ask more of callers.)
pub fn parse_heading(reading: Reading, s: &[u8], at: usize, kind: u8) -> Result<Step, Fault>
    requires { Ready s.now at }
    ensures { result ≡ heading_of reading s.now kind at }
{
    let end = words::parse_identifier(s, at);
    if !words::heading_fits(reading, end - at) {
        return Err(Cause::BadName.at(at));
    }
    Ok(Step {
        next: gaps::gap_end(s, end),
        sizes: Sizes::default().with(kind, end - at),
        reason: Step::BEHIND_HEADING,
    })
}
