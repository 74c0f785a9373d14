// Writing a record without content: its bytes into the store, and the place behind its token.
#![tactic(auto)]

ghost use Rattle.std.specs.Prelude.{◌≡◌, ◌+◌, ◌≤◌, ◌<◌, length};
ghost use Rattle.records.specs.Put.{put};
ghost use Rattle.grammar.specs.Machine.{loop_end};
ghost use Rattle.desk.specs.Written.{loop_bytes, number_bytes};
ghost use Rattle.desk.specs.Desk.{StoreRoom, record_here, MarkAhead, NumberAhead, LoopAhead};
ghost use Rattle.desk.specs.Desk.{WrotePlain, WroteLoop, WroteEnd};
ghost use Rattle.desk.specs.Writer.{Same};

use desk::{Cursor, Writer};
use kinds::{Kind, Shape};
use numbers::Decimal;
use records::Token;

// The bytes of `loop_`, and of the `save_` that closes a frame.
pub const KEYWORD: usize = 5;

// A loop's record.
fn put_loop(full: bool, store: &mut [u8], at: usize, token: Token, tags: u32)
    requires { at + length (loop_bytes full token tags) ≤ length store.old }
    ensures { store.new ≡ put at (loop_bytes full token tags) store.old }
{
    if full {
        records::write_loop(&mut store[at..], token, tags);
        return;
    }
    records::write_place(&mut store[at..], Kind::LOOP, token);
}

// A number's record in Read.
fn put_decimal(store: &mut [u8], at: usize, token: Token, decimal: Decimal)
    requires { (at + length (number_bytes token decimal) ≤ length store.old) × (decimal.places < 256) }
    ensures { store.new ≡ put at (number_bytes token decimal) store.old }
{
    let uncertain = decimal.uncertain;
    if uncertain {
        records::write_uncertain(&mut store[at..], token, decimal);
        return;
    }
    records::write_number(&mut store[at..], token, decimal);
}

// A number's record: Outline does not ask what the number means.
fn put_number(writer: &mut Writer, c: Cursor, kind: u8, size: usize)
    requires { NumberAhead writer.old.full writer.old.text.now kind size c writer.old.store.now }
    ensures { writer.new ≡ record writer.old { store = record writer.old.store { now = put c.at (record_here writer.old.full writer.old.text.now c kind size) writer.old.store.now } } }
{
    let Cursor { place, at, .. } = c;
    let token = desk::token_at(place, size);
    if !writer.full {
        records::write_place(&mut writer.store[at..], kind, token);
        return;
    }
    let start = place.offset;
    let decimal = decimals::decimal_of(&writer.text[start..start + size]);
    put_decimal(writer.store, at, token, decimal);
}

// A token that has none, and no more than its place.
pub fn write_mark(writer: &mut Writer, c: Cursor, kind: u8, size: usize) -> Cursor
    requires { MarkAhead writer.old.full writer.old.text.now kind size c writer.old.store.now }
    ensures same { Same writer.old writer.new }
    ensures area { writer.new.area.now ≡ writer.old.area.now }
    ensures wrote { WrotePlain writer.old.full writer.old.text.now kind size c writer.old.store.now
        result writer.new.store.now }
{
    let Cursor { place, at, .. } = c;
    let token = desk::token_at(place, size);
    records::write_place(&mut writer.store[at..], kind, token);
    let stored = desk::record_length(writer.full, Shape::Place);
    writer.pass(c, kind, size, stored, 0)
}

// A number.
pub fn write_number(writer: &mut Writer, c: Cursor, kind: u8, size: usize) -> Cursor
    requires { NumberAhead writer.old.full writer.old.text.now kind size c writer.old.store.now }
    ensures same { Same writer.old writer.new }
    ensures area { writer.new.area.now ≡ writer.old.area.now }
    ensures wrote { WrotePlain writer.old.full writer.old.text.now kind size c writer.old.store.now
        result writer.new.store.now }
{
    put_number(writer, c, kind, size);
    let stored = desk::number_length(writer.full, kind);
    writer.pass(c, kind, size, stored, 0)
}

// `loop_`, with the number of its tags.
pub fn write_loop(writer: &mut Writer, c: Cursor, tags: usize) -> Cursor
    requires { LoopAhead writer.old.full writer.old.text.now tags c writer.old.store.now }
    ensures same { Same writer.old writer.new }
    ensures area { writer.new.area.now ≡ writer.old.area.now }
    ensures wrote { WroteLoop writer.old.full writer.old.text.now tags c writer.old.store.now
        result writer.new.store.now }
{
    let Cursor { place, at, .. } = c;
    let token = desk::token_at(place, KEYWORD);
    put_loop(writer.full, writer.store, at, token, tags as u32);
    let stored = desk::record_length(writer.full, Shape::Count);
    writer.pass(c, Kind::LOOP, KEYWORD, stored, 0)
}

// A loop's end, which has no token.
pub fn write_end(writer: &mut Writer, c: Cursor) -> Cursor
    requires { StoreRoom writer.old.full loop_end c writer.old.store.now }
    ensures same { Same writer.old writer.new }
    ensures area { writer.new.area.now ≡ writer.old.area.now }
    ensures wrote { WroteEnd writer.old.full c writer.old.store.now result
        writer.new.store.now }
{
    records::write_end(&mut writer.store[c.at..]);
    Cursor {
        at: c.at + desk::record_length(writer.full, Shape::Empty),
        ..c
    }
}
