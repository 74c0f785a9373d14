// Records written: their bytes in a lent store.
#![tactic(auto)]

ghost use Rattle.std.specs.Prelude.{◌≡◌, ◌+◌, ◌≤◌, ◌<◌, [], ◌∷◌, length};
ghost use Rattle.records.specs.Bytes.{le32, le64, signed32, flag};
ghost use Rattle.records.specs.Put.{front, put};
ghost use Rattle.records.specs.Records.{token_bytes, decimal_bytes, end_record, place_record, content_record};
ghost use Rattle.records.specs.Records.{loop_record, number_record, uncertain_record};

use kinds::Kind;
use numbers::Decimal;

// Where a token lies: document 01's P.
#[derive(Clone, Copy, Default)]
pub struct Token {
    pub offset: u32,
    pub length: u32,
    pub line: u32,
    pub column: u32,
}

// Where a record's body goes on behind P, and behind the decimal parts.
const BEHIND_PLACE: usize = 1 + Kind::PLACE;

const BEHIND_PARTS: usize = 1 + Kind::PLACE + Kind::PARTS;

// One byte at an offset.
pub fn put_u8(store: &mut [u8], at: usize, v: u8)
    requires { at < length store.old }
    ensures { store.new ≡ put at (v ∷ []) store.old }
{
    store[at] = v;
}

// Four bytes from an offset on, the lowest first.
fn put_u32(store: &mut [u8], at: usize, v: u32)
    requires { at + 4 ≤ length store.old }
    ensures { store.new ≡ put at (le32 v) store.old }
{
    store[at..at + 4].copy_from_slice(&v.to_le_bytes());
}

// Eight bytes from an offset on.
pub fn put_u64(store: &mut [u8], at: usize, v: u64)
    requires { at + 8 ≤ length store.old }
    ensures { store.new ≡ put at (le64 v) store.old }
{
    store[at..at + 8].copy_from_slice(&v.to_le_bytes());
}

// P from an offset on.
fn put_token(store: &mut [u8], at: usize, t: Token)
    requires { at + 16 ≤ length store.old }
    ensures { store.new ≡ put at (token_bytes t) store.old }
{
    put_u32(store, at, t.offset);
    put_u32(store, at + 4, t.length);
    put_u32(store, at + 8, t.line);
    put_u32(store, at + 12, t.column);
}

// A number by its sign and size, as its two's complement.
fn signed(minus: bool, size: u32) -> u32
    ensures { le32 result ≡ signed32 minus size }
{
    if minus { size.wrapping_neg() } else { size }
}

// Decimal parts from an offset on, without the uncertainty.
fn put_decimal(store: &mut [u8], at: usize, d: Decimal)
    requires { (at + 18 ≤ length store.old) × (d.places < 256) }
    ensures { store.new ≡ put at (decimal_bytes d) store.old }
{
    put_u8(store, at, u8::from(d.minus));
    put_u32(store, at + 1, d.integer);
    put_u64(store, at + 5, d.fraction);
    put_u8(store, at + 13, d.places as u8);
    put_u32(store, at + 14, signed(d.lowers, d.exponent));
}

// A loop's end, at the front of the unused rest of a store.
pub fn write_end(rest: &mut [u8])
    requires { 1 ≤ length rest.old }
    ensures { rest.new ≡ front end_record rest.old }
{
    put_u8(rest, 0, Kind::LOOP_END);
}

// A record of P alone: kinds 3, 8 and 9, and in the outline all but kind 7.
// (A kind by its number: a `Kind` would ask more of callers.)
pub fn write_place(rest: &mut [u8], kind: u8, t: Token)
    requires { 17 ≤ length rest.old }
    ensures { rest.new ≡ front (place_record kind t) rest.old }
{
    put_u8(rest, 0, kind);
    put_token(rest, 1, t);
}

// A record with content: P and the area offset.
pub fn write_content(rest: &mut [u8], kind: u8, t: Token, area: u32)
    requires { 21 ≤ length rest.old }
    ensures { rest.new ≡ front (content_record kind t area) rest.old }
{
    write_place(rest, kind, t);
    put_u32(rest, BEHIND_PLACE, area);
}

// A loop: P and the number of its tags.
pub fn write_loop(rest: &mut [u8], t: Token, tags: u32)
    requires { 21 ≤ length rest.old }
    ensures { rest.new ≡ front (loop_record t tags) rest.old }
{
    write_content(rest, Kind::LOOP, t, tags);
}

// A number: P and decimal parts.
pub fn write_number(rest: &mut [u8], t: Token, d: Decimal)
    requires { (35 ≤ length rest.old) × (d.places < 256) }
    ensures { rest.new ≡ front (number_record t d) rest.old }
{
    write_place(rest, Kind::NUMBER, t);
    put_decimal(rest, BEHIND_PLACE, d);
}

// A number with uncertainty: P, decimal parts and the uncertainty.
pub fn write_uncertain(rest: &mut [u8], t: Token, d: Decimal)
    requires { (39 ≤ length rest.old) × (d.places < 256) }
    ensures { rest.new ≡ front (uncertain_record t d) rest.old }
{
    write_place(rest, Kind::UNCERTAIN, t);
    put_decimal(rest, BEHIND_PLACE, d);
    put_u32(rest, BEHIND_PARTS, d.uncertainty);
}
