// Whether a store is whole records, nested as the reading has them: a machine over their kinds.
#![tactic(auto)]

ghost use Rattle.std.specs.Prelude.{◌≡◌, ◌+◌, ◌^◌, ◌<◌, Bool};
ghost use Rattle.entries.specs.Walk.{entries};
ghost use Rattle.kinds.specs.Kinds.{number_of, is_value_kind};
ghost use Rattle.nesting.specs.Nesting.{opens_loop, further, at_items, at_names, ends_loop, at_values};
ghost use Rattle.nesting.specs.Nesting.{stands, counted, standing, ended, nested};

use entries::Entry;
use kinds::Kind;
use rules::Reading;

// What may stand next in a store.
#[derive(Clone, Copy)]
pub enum Where {
    // The block.
    Start,
    // An item, a frame or a frame's end; `empty`: a loop without rows stands directly before.
    Items { empty: bool },
    // So many of a loop's tags are still to come.
    Names { all: usize, left: usize },
    // A loop's values, `count` so far, or its end.
    Values { all: usize, count: usize },
    // A tag's value.
    Wants,
}

// Whether a frame is open, and what may stand next.
#[derive(Clone, Copy)]
pub struct Standing {
    pub frame: bool,
    pub place: Where,
}

// The kinds of values, from inapplicable to a number with uncertainty, and the strict reading's quoted ones.
// (A kind by its number: a `Kind` would ask more of callers.)
#[tactic(auto, unfolding(kinds::specs::Kinds::is_value_kind))]
pub fn is_value(kind: u8) -> bool
    ensures { result ≡ is_value_kind kind }
{
    matches!(kind, Kind::INAPPLICABLE..=Kind::UNCERTAIN | Kind::QUOTED)
}

// Where a record leads behind which items may stand.
fn to_items(frame: bool) -> Option<Standing>
    ensures { result ≡ stands frame (Where.Items Bool.false) }
{
    Some(Standing {
        frame,
        place: Where::Items { empty: false },
    })
}

// A loop counts at least one tag.
#[tactic(auto, unfolding(crate::specs::Nesting::opens_loop))]
fn open_loop(frame: bool, tags: usize) -> Option<Standing>
    ensures { result ≡ opens_loop frame tags }
{
    if tags == 0 {
        return None;
    }
    Some(Standing {
        frame,
        place: Where::Names {
            all: tags,
            left: tags,
        },
    })
}

// A record that is no item's and no frame's: in the strict reading a further block may stand outside frames.
fn next_block(reading: Reading, frame: bool, kind: Kind) -> Option<Standing>
    ensures { result ≡ further reading frame (number_of kind) }
{
    match reading {
        Reading::First => None,
        Reading::Strict => {
            if !matches!(kind, Kind::Block) || frame {
                return None;
            }
            to_items(false)
        }
    }
}

// A record between items.
#[tactic(auto, unfolding(crate::specs::Nesting::at_items))]
fn at_items(reading: Reading, frame: bool, empty: bool, kind: Kind, tags: usize) -> Option<Standing>
    ensures { result ≡ at_items reading frame empty (number_of kind) tags }
{
    match kind {
        Kind::Tag => (!empty).then_some(Standing {
            frame,
            place: Where::Wants,
        }),
        Kind::Loop => open_loop(frame, tags),
        Kind::FrameOpen => {
            if frame {
                return None;
            }
            to_items(true)
        }
        Kind::FrameClose => {
            if !frame {
                return None;
            }
            to_items(false)
        }
        _ => next_block(reading, frame, kind),
    }
}

// A record among a loop's tags.
#[tactic(auto, using(crate::proofs::Nesting::names_last, crate::proofs::Nesting::names_more), unfolding(crate::specs::Nesting::at_names, crate::specs::Nesting::after_name))]
fn at_names(frame: bool, all: usize, left: usize, kind: Kind) -> Option<Standing>
    ensures { result ≡ at_names frame all left (number_of kind) }
{
    if left == 0 || !matches!(kind, Kind::LoopTag) {
        return None;
    }
    let place = if left == 1 {
        Where::Values { all, count: 0 }
    } else {
        Where::Names {
            all,
            left: left - 1,
        }
    };
    Some(Standing { frame, place })
}

// The end of a loop of so many values: in the strict reading it has some.
fn end_loop(reading: Reading, frame: bool, count: usize) -> Option<Standing>
    ensures { result ≡ ends_loop reading frame count }
{
    match reading {
        Reading::First => Some(Standing {
            frame,
            place: Where::Items { empty: count == 0 },
        }),
        Reading::Strict => {
            if count == 0 {
                return None;
            }
            to_items(frame)
        }
    }
}

// A record among a loop's values; so many are whole rows at the end.
#[tactic(auto, unfolding(crate::specs::Nesting::at_values))]
fn at_values(
    reading: Reading,
    frame: bool,
    all: usize,
    count: usize,
    kind: Kind,
) -> Option<Standing>
    requires { count + 1 < 2 ^ 64 }
    ensures { result ≡ at_values reading frame all count (number_of kind) }
{
    if matches!(kind, Kind::LoopEnd) {
        if count.is_multiple_of(all) {
            return end_loop(reading, frame, count);
        }
        return None;
    }
    is_value(kind.number()).then_some(Standing {
        frame,
        place: Where::Values {
            all,
            count: count + 1,
        },
    })
}

impl Standing {
    // Where a record of a kind, with its number of tags, leads; or that it may not stand here.
    #[tactic(auto, unfolding(crate::specs::Nesting::standing))]
    fn after(self, reading: Reading, kind: Kind, tags: usize) -> Option<Standing>
        requires { counted self.place + 1 < 2 ^ 64 }
        ensures { result ≡ standing reading self.frame self.place (number_of kind) tags }
    {
        let frame = self.frame;
        match self.place {
            Where::Start => {
                if !matches!(kind, Kind::Block) {
                    return None;
                }
                to_items(frame)
            }
            Where::Items { empty } => at_items(reading, frame, empty, kind, tags),
            Where::Names { all, left } => at_names(frame, all, left, kind),
            Where::Values { all, count } => at_values(reading, frame, all, count, kind),
            Where::Wants => {
                if !is_value(kind.number()) {
                    return None;
                }
                to_items(frame)
            }
        }
    }

    // A store ends between items, outside frames.
    #[tactic(auto, unfolding(crate::specs::Nesting::ended))]
    fn has_ended(self) -> bool
        ensures { result ≡ ended self.frame self.place }
    {
        matches!(self.place, Where::Items { empty: _ }) && !self.frame
    }
}

// Whether a store is whole records, nested as the reading has them. (Here and above a loop goes from record to record, by where
// each says that the next one starts; an iterator of records would hold the same offset, and need laws for it.)
pub fn is_nested(reading: Reading, store: &[u8]) -> bool
    ensures { result ≡ nested reading (entries store.now) }
{
    let mut here = Standing {
        frame: false,
        place: Where::Start,
    };
    let mut at = 0;
    while at < store.len() {
        let Some(Entry { kind, fields, next }) = entries::read_record(store, at) else {
            return false;
        };
        let Some(then) = here.after(reading, kind, fields.number as usize) else {
            return false;
        };
        here = then;
        at = next;
    }
    here.has_ended()
}
