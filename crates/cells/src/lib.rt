// The values of a store, one after the other: each with its record, its frame, its tag and its row.
#![tactic(auto)]

ghost use Rattle.std.specs.Prelude.{◌≡◌, cond, ◌+◌, ◌/◌, ◌%◌, ◌<◌, ◌^◌, eqb, drop};
ghost use Rattle.kinds.specs.Kinds.{number_of};
ghost use Rattle.entries.specs.Entries.{entry_at};
ghost use Rattle.cells.specs.Walk.{entries_at, Placed, Finds, Ahead, here_after, first, leap_of, count_of};

use kinds::Kind;

// A store with its area.
#[derive(Clone, Copy)]
pub struct Side<'a> {
    pub store: &'a [u8],
    pub area: &'a [u8],
}

// Where a walk stands: a record, the frame it stands in, the first tag of its item, each by number and offset; how many
// tags that has, how many of its values stand before, and the offset of the tag that the next one has.
#[derive(Clone, Copy)]
pub struct Here {
    pub at: usize,
    pub number: usize,
    pub frame: usize,
    pub outer: usize,
    pub header: usize,
    pub from: usize,
    pub tags: usize,
    pub count: usize,
    pub name: usize,
}

// A value: its record, its frame's and its tag's, each by number and offset, and its row. Frame 0 is the block.
#[derive(Clone, Copy)]
pub struct Found {
    pub number: usize,
    pub at: usize,
    pub frame: usize,
    pub outer: usize,
    pub tag: usize,
    pub name: usize,
    pub row: usize,
}

// The value that a walk comes to, and the spot behind it.
#[derive(Clone, Copy)]
pub struct Met {
    pub value: Found,
    pub after: Here,
}

// A record that is passed over: its kind, and where the next one starts.
#[derive(Clone, Copy)]
struct Leap {
    kind: Kind,
    next: usize,
}

// The spot of the first record.
pub fn start() -> Here
    ensures { result ≡ first }
{
    Here {
        at: 0,
        number: 0,
        frame: 0,
        outer: 0,
        header: 0,
        from: 0,
        tags: 0,
        count: 0,
        name: 0,
    }
}

// The column of a value with so many of its item before it.
fn column_of(count: usize, tags: usize) -> usize
    ensures { result ≡ count % tags }
{
    count.checked_rem(tags).unwrap_or(count)
}

// Its row.
fn row_of(count: usize, tags: usize) -> usize
    ensures { result ≡ count / tags }
{
    count.checked_div(tags).unwrap_or(0)
}

// The leap over the record at an offset. Its fields are not read, as most are passed over.
fn leap_from(store: &[u8], at: usize) -> Option<Leap>
    ensures { result ≡ leap_of (entry_at store.now at) }
{
    let kind = Kind::of(*store.get(at)?);
    if kind.number() == 0 {
        return None;
    }
    let body = at + 1;
    let length = kind.shape().length();
    if store.len() - body < length {
        return None;
    }
    Some(Leap {
        kind,
        next: body + length,
    })
}

// The offset of the record behind the one at an offset; the store's end where there is none.
fn record_behind(store: &[u8], at: usize) -> usize
    ensures { entries_at store.now result ≡ drop 1 (entries_at store.now at) }
{
    match leap_from(store, at) {
        Some(leap) => leap.next,
        None => store.len(),
    }
}

// How many tags the record at an offset counts, where it is a loop's; any other counts none.
fn tags_at(store: &[u8], at: usize, kind: Kind) -> usize
    ensures { result ≡ cond (eqb (number_of kind) 5) (count_of (entry_at store.now at)) 0 }
{
    let Kind::Loop = kind else {
        return 0;
    };
    match entries::read_record(store, at) {
        Some(entry) => entry.fields.number as usize,
        None => 0,
    }
}

// The value at a spot.
fn value_at(store: &[u8], here: Here) -> Found
    requires { Placed store.now here }
    ensures { Finds store.now here result }
{
    let column = column_of(here.count, here.tags);
    Found {
        number: here.number,
        at: here.at,
        frame: here.frame,
        outer: here.outer,
        tag: here.header + column,
        name: here.name,
        row: row_of(here.count, here.tags),
    }
}

// The offset of the tag of the value behind the one at a spot: the next one, or behind the last the first again.
fn tag_behind(store: &[u8], here: Here) -> usize
    requires { Placed store.now here × (here.count + 1 < 2 ^ 64) }
    ensures { entries_at store.now result ≡ drop ((here.count + 1) % here.tags) (entries_at store.now here.from) }
{
    let column = column_of(here.count, here.tags);
    if column + 1 == here.tags {
        return here.from;
    }
    record_behind(store, here.name)
}

// The spot behind a record that is no value.
fn behind(here: Here, kind: Kind, tags: usize, next: usize) -> Here
    requires { here.number + 1 < 2 ^ 64 }
    ensures { result ≡ here_after (number_of kind) tags next here }
{
    let passed = Here {
        at: next,
        number: here.number + 1,
        ..here
    };
    match kind {
        Kind::FrameOpen => Here {
            frame: here.number,
            outer: here.at,
            ..passed
        },
        Kind::FrameClose => Here {
            frame: 0,
            outer: 0,
            ..passed
        },
        Kind::Tag => Here {
            header: here.number,
            from: here.at,
            tags: 1,
            count: 0,
            name: here.at,
            ..passed
        },
        Kind::Loop => Here {
            header: here.number + 1,
            from: next,
            tags,
            count: 0,
            name: next,
            ..passed
        },
        _ => passed,
    }
}

// The next value at or behind a spot: from record to record, by where each says that the next one starts.
pub fn next_value(store: &[u8], here: Here) -> Option<Met>
    requires { Placed store.now here }
    ensures { Ahead store.now here result }
{
    let mut spot = here;
    let mut at = here.at;
    while at < store.len() {
        let Leap { kind, next } = leap_from(store, at)?;
        if nesting::is_value(kind.number()) {
            return Some(Met {
                value: value_at(store, spot),
                after: Here {
                    at: next,
                    number: spot.number + 1,
                    count: spot.count + 1,
                    name: tag_behind(store, spot),
                    ..spot
                },
            });
        }
        spot = behind(spot, kind, tags_at(store, at, kind), next);
        at = next;
    }
    None
}
