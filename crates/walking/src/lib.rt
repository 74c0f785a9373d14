// Writing from token to token: values and names, one item.
#![tactic(auto)]

ghost use Rattle.std.specs.Prelude.{◌≡◌, true, ◌≤◌, length};
ghost use Rattle.places.specs.Places.{IsPlace};
ghost use Rattle.grammar.specs.Tokens.{tag_at, loop_at};
ghost use Rattle.desk.specs.Desk.{TextAhead, Marked, WroteToken};
ghost use Rattle.desk.specs.Writer.{desk_of, Same};
ghost use Rattle.walking.specs.Walk.{behind_gap, ValueAhead, names_from, NamesAhead, ValuesAhead, WroteNames, WroteValues, ItemHere, WroteItem};

use desk::{Cursor, Writer};
use found::Found;
use kinds::Kind;
use rules::Reading;

// The cursor behind space and comments.
pub fn trimmed(s: &[u8], c: Cursor) -> Cursor
    requires { IsPlace s.now c.place }
    ensures { result ≡ behind_gap s.now c }
{
    let place = c.place;
    Cursor {
        place: trimming::trim_spaces_first(s, place.offset, place.line, place.column),
        ..c
    }
}

// A value that is found.
fn write_found(writer: &mut Writer, c: Cursor, kind: u8, size: usize) -> Cursor
    requires { ValueAhead writer.old.reading writer.old.full writer.old.text.now kind size (desk_of writer.old c) }
    ensures same { Same writer.old writer.new }
    ensures wrote { WroteToken writer.old.full writer.old.text.now kind size (desk_of writer.old c)
        (desk_of writer.new result) }
{
    match kind {
        ..=Kind::UNKNOWN => putting::write_mark(writer, c, kind, size),
        Kind::NUMBER | Kind::UNCERTAIN => putting::write_number(writer, c, kind, size),
        _ => {
            let text = Kind::of(kind);
            copying::write_text(writer, c, kind, size, text.marks(), text.opening())
        }
    }
}

// Values, until one fails: those of a loop, or of a tag, which in a text that is read has one.
fn write_values(writer: &mut Writer, c: Cursor) -> Cursor
    requires { ValuesAhead writer.old.reading writer.old.full writer.old.text.now (desk_of writer.old c) }
    ensures same { Same writer.old writer.new }
    ensures wrote { WroteValues writer.old.reading writer.old.full writer.old.text.now (desk_of writer.old c)
        (desk_of writer.new result) }
{
    let mut last = c;
    loop {
        let here = trimmed(writer.text, last);
        let offset = here.place.offset;
        let found = Found::of(values::pack_value(writer.reading, writer.text, offset));
        let Found::Value { kind, size } = found else {
            return here;
        };
        last = write_found(writer, here, kind, size);
    }
}

// How many tags stand from an offset on.
fn count_tags(reading: Reading, s: &[u8], from: usize) -> usize
    requires { from ≤ length s.now }
    ensures { result ≡ length (names_from reading s.now from) }
{
    let mut at = gaps::gap_end(s, from);
    let mut count: usize = 0;
    loop {
        let end = openings::name_end(reading, s, at);
        if end <= at {
            return count;
        }
        at = gaps::gap_end(s, end);
        count += 1;
    }
}

// A tag of an item or of a loop.
fn write_tag(writer: &mut Writer, c: Cursor, kind: u8, size: usize) -> Cursor
    requires { TextAhead writer.old.full writer.old.text.now kind size (desk_of writer.old c) × Marked kind 1 1 }
    ensures same { Same writer.old writer.new }
    ensures wrote { WroteToken writer.old.full writer.old.text.now kind size (desk_of writer.old c)
        (desk_of writer.new result) }
{
    let marks = Kind::TAG_MARKS;
    copying::write_text(writer, c, kind, size, marks, marks)
}

// The names of a loop, as far as they may stand.
fn write_names(writer: &mut Writer, c: Cursor) -> Cursor
    requires { NamesAhead writer.old.reading writer.old.full writer.old.text.now (desk_of writer.old c) }
    ensures same { Same writer.old writer.new }
    ensures wrote { WroteNames writer.old.reading writer.old.full writer.old.text.now (desk_of writer.old c)
        (desk_of writer.new result) }
{
    let mut last = c;
    loop {
        let here = trimmed(writer.text, last);
        let offset = here.place.offset;
        let end = openings::name_end(writer.reading, writer.text, offset);
        if end <= offset {
            return here;
        }
        last = write_tag(writer, here, Kind::LOOP_TAG, end - offset);
    }
}

// A loop: its record counts the names, so they are counted first.
fn write_loop_item(writer: &mut Writer, c: Cursor) -> Cursor
    requires { ItemHere writer.old.reading writer.old.full writer.old.text.now (desk_of writer.old c)
        × (loop_at writer.old.reading writer.old.text.now c.place.offset ≡ true) }
    ensures same { Same writer.old writer.new }
    ensures wrote { WroteItem writer.old.reading writer.old.full writer.old.text.now (desk_of writer.old c)
        (desk_of writer.new result) }
{
    let names = c.place.offset + putting::KEYWORD;
    let tags = count_tags(writer.reading, writer.text, names);
    let opened = putting::write_loop(writer, c, tags);
    let named = write_names(writer, opened);
    let valued = write_values(writer, named);
    putting::write_end(writer, valued)
}

// A tag and its value.
fn write_tag_item(writer: &mut Writer, c: Cursor) -> Cursor
    requires { ItemHere writer.old.reading writer.old.full writer.old.text.now (desk_of writer.old c)
        × (tag_at writer.old.reading writer.old.text.now c.place.offset ≡ true) }
    ensures same { Same writer.old writer.new }
    ensures wrote { WroteItem writer.old.reading writer.old.full writer.old.text.now (desk_of writer.old c)
        (desk_of writer.new result) }
{
    let offset = c.place.offset;
    let end = words::long_word_end(writer.text, offset);
    let tagged = write_tag(writer, c, Kind::TAG, end - offset);
    write_values(writer, tagged)
}

// An item; most are tags.
pub fn write_item(writer: &mut Writer, c: Cursor) -> Cursor
    requires { ItemHere writer.old.reading writer.old.full writer.old.text.now (desk_of writer.old c) }
    ensures same { Same writer.old writer.new }
    ensures wrote { WroteItem writer.old.reading writer.old.full writer.old.text.now (desk_of writer.old c)
        (desk_of writer.new result) }
{
    if openings::at_tag(writer.reading, writer.text, c.place.offset) {
        write_tag_item(writer, c)
    } else {
        write_loop_item(writer, c)
    }
}
