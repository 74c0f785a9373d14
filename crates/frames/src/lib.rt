// Frames and blocks of a store: whether a frame's name stands twice, and whether there is one block only.
#![tactic(auto)]

ghost use Rattle.std.specs.Prelude.{◌≡◌, cond, eqb};
ghost use Rattle.naming.specs.Names.{first_repeat, naming_of};
ghost use Rattle.frames.specs.Frames.{frames, first, is_single};

use kinds::Kind;
use names::Named;
use naming::{NameError, Walk};

// Where a walk over frames stands: a record's offset and number, and how many frames stand before it.
#[derive(Clone, Copy, Default)]
pub struct Mark {
    pub at: usize,
    pub number: usize,
    pub count: usize,
}

impl Walk for Mark {
    ghost use Rattle.frames.specs.Frames.{frames_at, Counted};

    ghost rest = { frames_at };

    ghost ready = { Counted };

    ghost passed = { λ m. m.count };

    fn next<'a>(self, store: &[u8], area: &'a [u8]) -> Option<(Named<'a>, Mark)> {
        let mut here = self;
        while let Some(entry) = entries::read_record(store, here.at) {
            let after = Mark {
                at: entry.next,
                number: here.number + 1,
                count: here.count,
            };
            if entry.kind.number() == Kind::FRAME_OPEN {
                let name = Named {
                    at: here.at,
                    number: here.number,
                    scope: 0,
                    bytes: steps::bytes_at(store, area, here.at),
                };
                let count = here.count + 1;
                return Some((name, Mark { count, ..after }));
            }
            here = after;
        }
        None
    }

    fn passed(self) -> usize {
        self.count
    }
}

// The mark of the first record.
fn start() -> Mark
    ensures { result ≡ first }
{
    Mark::default()
}

// The earliest frame whose name stands before it.
pub fn check_frames(store: &[u8], area: &[u8]) -> Result<(), NameError>
    ensures { result ≡ naming_of (first_repeat (frames store.now area.now)) }
{
    naming::first_repeat(store, area, start(), start())
}

// 1 for a block's record, 0 for any other.
fn block_in(kind: u8) -> usize
    ensures { result ≡ cond (eqb kind 1) 1 0 }
{
    if kind == Kind::BLOCK { 1 } else { 0 }
}

// Whether a store has one block.
pub fn is_single(store: &[u8]) -> bool
    ensures { result ≡ is_single store.now }
{
    let mut blocks = 0;
    let mut at = 0;
    while let Some(entry) = entries::read_record(store, at) {
        blocks += block_in(entry.kind.number());
        at = entry.next;
    }
    blocks == 1
}
