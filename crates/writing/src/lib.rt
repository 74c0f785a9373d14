// Writing the records of a text that is known to be good, into a store and an area that are known to have room: headings,
// frames, and the blocks.
#![tactic(auto)]

ghost use Rattle.std.specs.Prelude.{◌≡◌, true, ◌<◌, length};
ghost use Rattle.records.specs.Put.{front};
ghost use Rattle.std.proofs.Math.Option.{none};
ghost use Rattle.grammar.specs.Tokens.{save_at};
ghost use Rattle.items.specs.Answers.{Here, item_at};
ghost use Rattle.desk.specs.Desk.{TextAhead, Marked};
ghost use Rattle.desk.specs.Writer.{desk_of, Same};
ghost use Rattle.writing.specs.Block.{Ahead, MovedOn, WroteRest, WroteHeading, CloseAhead, WroteClose, stop_of, Fits, store_bytes, area_bytes};

use desk::{Cursor, Writer};
use found::Found;
use items::Item;
use kinds::Kind;
use rules::Reading;

// Where the items of a frame stop, unless one that is read stands here: it is decided before it is written, so that one that fails leaves no trace.
#[tactic(auto, unfolding(crate::specs::Block::stop_of))]
fn decide_stop(reading: Reading, s: &[u8], at: usize) -> Option<usize>
    requires { Here s.now at }
    ensures { result ≡ stop_of (item_at reading s.now at) }
{
    match items::parse_data_item(reading, s, at) {
        Ok(item) => match item {
            Item::Loop { .. } | Item::Single { .. } => None,
            Item::Failed { stop, .. } => Some(stop),
            Item::Absent { at: here } => Some(here),
        },
        Err(fault) => Some(fault.at),
    }
}

// The same; most items are tags, and of a tag that may stand only its value is looked for.
fn stop_in_frame(reading: Reading, s: &[u8], at: usize) -> Option<usize>
    requires { Here s.now at }
    ensures { result ≡ stop_of (item_at reading s.now at) }
{
    let end = openings::name_end(reading, s, at);
    if end <= at {
        return decide_stop(reading, s, at);
    }
    let stop = gaps::gap_end(s, end);
    let Found::Value { .. } = Found::of(values::pack_value(reading, s, stop)) else {
        return decide_stop(reading, s, at);
    };
    None
}

// A heading of a block or a frame, of so many bytes, and the space behind it.
fn write_heading(writer: &mut Writer, c: Cursor, kind: u8, size: usize) -> Cursor
    requires { TextAhead writer.old.full writer.old.text.now kind size (desk_of writer.old c) × Marked kind 5 5 }
    ensures same { Same writer.old writer.new }
    ensures wrote { WroteHeading writer.old.full writer.old.text.now kind size (desk_of writer.old c)
        (desk_of writer.new result) }
{
    let marks = Kind::HEADING_MARKS;
    let headed = copying::write_text(writer, c, kind, size, marks, marks);
    walking::trimmed(writer.text, headed)
}

// The `save_` that closes a frame, where its items stopped.
fn close_frame(writer: &mut Writer, c: Cursor, stop: usize) -> Cursor
    requires { CloseAhead writer.old.full writer.old.text.now stop c writer.old.store.now }
    ensures same { Same writer.old writer.new }
    ensures area { writer.new.area.now ≡ writer.old.area.now }
    ensures wrote { WroteClose writer.old.full writer.old.text.now stop c writer.old.store.now
        result writer.new.store.now }
{
    let here = Cursor {
        place: places::advance(writer.text, c.place, stop),
        ..c
    };
    let closed = putting::write_mark(writer, here, Kind::FRAME_CLOSE, putting::KEYWORD);
    walking::trimmed(writer.text, closed)
}

// A frame: its heading, its items, its end.
fn write_frame(writer: &mut Writer, c: Cursor) -> Cursor
    requires { Ahead writer.old.reading writer.old.full writer.old.text.now none (desk_of writer.old c)
        × (save_at writer.old.reading writer.old.text.now c.place.offset ≡ true) }
    ensures same { Same writer.old writer.new }
    ensures moved { MovedOn writer.old.reading writer.old.full writer.old.text.now (desk_of writer.old c)
        (desk_of writer.new result) }
{
    let start = c.place.offset;
    let end = words::parse_identifier(writer.text, start);
    let mut here = write_heading(writer, c, Kind::FRAME_OPEN, end - start);
    loop {
        let offset = here.place.offset;
        if let Some(stop) = stop_in_frame(writer.reading, writer.text, offset) {
            return close_frame(writer, here, stop);
        }
        here = walking::write_item(writer, here);
    }
}

// The item, the frame or, in the strict reading, the further block's heading at the cursor.
fn write_part(writer: &mut Writer, c: Cursor) -> Cursor
    requires { Ahead writer.old.reading writer.old.full writer.old.text.now none (desk_of writer.old c)
        × (c.place.offset < length writer.old.text.now) }
    ensures same { Same writer.old writer.new }
    ensures moved { MovedOn writer.old.reading writer.old.full writer.old.text.now (desk_of writer.old c)
        (desk_of writer.new result) }
{
    let offset = c.place.offset;
    if openings::at_save(writer.reading, writer.text, offset) {
        write_frame(writer, c)
    } else if deciding::heads_block(writer.reading, writer.text, offset) {
        let end = words::parse_identifier(writer.text, offset);
        write_heading(writer, c, Kind::BLOCK, end - offset)
    } else {
        walking::write_item(writer, c)
    }
}

// Items, frames and headings, to the end of the text.
fn write_items(writer: &mut Writer, c: Cursor) -> Cursor
    requires { Ahead writer.old.reading writer.old.full writer.old.text.now none (desk_of writer.old c) }
    ensures same { Same writer.old writer.new }
    ensures wrote { WroteRest writer.old.reading writer.old.full writer.old.text.now (desk_of writer.old c)
        (desk_of writer.new result) }
{
    let mut here = c;
    while here.place.offset < writer.text.len() {
        here = write_part(writer, here);
    }
    here
}

// The whole text: its first heading, then all that follows. Read copies contents (`full`), Outline does not.
pub fn write_block(reading: Reading, s: &[u8], full: bool, store: &mut [u8], area: &mut [u8])
    requires { Fits reading full s.now store.old area.old }
    ensures store_after { store.new ≡ front (store_bytes reading full s.now) store.old }
    ensures area_after { area.new ≡ front (area_bytes reading full s.now) area.old }
{
    let place = trimming::trim_from(s, 0, 1, 1);
    let start = place.offset;
    let end = words::parse_identifier(s, start);
    let mut writer = Writer {
        reading,
        text: s,
        full,
        store,
        area,
    };
    let first = Cursor {
        place,
        at: 0,
        area: 0,
    };
    let headed = write_heading(&mut writer, first, Kind::BLOCK, end - start);
    write_items(&mut writer, headed);
}
