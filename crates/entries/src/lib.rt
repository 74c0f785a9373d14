// Records read back: what stands at an offset of any bytes.
#![tactic(auto)]

ghost use Rattle.std.specs.Prelude.{◌≡◌, ◌+◌, ◌*◌, ◌≤◌, ◌<◌, length, drop};
ghost use Rattle.kinds.specs.Kinds.{shape_length};
ghost use Rattle.entries.specs.Entries.{exponent_size, de32, de64, token_of, parts_of, plain_fields};
ghost use Rattle.entries.specs.Entries.{parts_fields, fields_of, entry_at};

use kinds::{Kind, Shape};
use numbers::Decimal;
use records::Token;

// Decimal parts as they are stored: the sign byte, the fraction digits and the exponent's two's complement are not
// judged.
#[derive(Clone, Copy, Default, PartialEq, Eq)]
pub struct Parts {
    pub sign: u8,
    pub integer: u32,
    pub fraction: u64,
    pub places: u8,
    pub exponent: u32,
    pub uncertainty: u32,
}

// The size of an exponent that is kept in two's complement.
#[tactic(auto, unfolding(crate::specs::Entries::exponent_size))]
pub fn exponent_size(exponent: u32) -> u32
    ensures { result ≡ exponent_size exponent }
{
    if 2147483648 <= exponent {
        4294967295 - exponent + 1
    } else {
        exponent
    }
}

// What a record holds: P, the area offset or the number of tags, and decimal parts; 0 where its shape has none.
#[derive(Clone, Copy, Default)]
pub struct Fields {
    pub token: Token,
    pub number: u32,
    pub parts: Parts,
}

// A whole record; the next one starts at `next`.
#[derive(Clone, Copy)]
pub struct Entry {
    pub kind: Kind,
    pub fields: Fields,
    pub next: usize,
}

// The number that four bytes give.
fn u32_at(store: &[u8], at: usize) -> u32
    requires { at + 4 ≤ length store.now }
    ensures { result ≡ de32 (drop at store.now) }
{
    u32::from_le_bytes([store[at], store[at + 1], store[at + 2], store[at + 3]])
}

// The number that eight bytes give.
fn u64_at(store: &[u8], at: usize) -> u64
    requires { at + 8 ≤ length store.now }
    ensures { result ≡ de64 (drop at store.now) }
{
    let low = u32_at(store, at);
    let high = u32_at(store, at + 4);
    low as u64 + high as u64 * 4294967296
}

// P at an offset.
fn token_at(store: &[u8], at: usize) -> Token
    requires { at + 16 ≤ length store.now }
    ensures { result ≡ token_of (drop at store.now) }
{
    Token {
        offset: u32_at(store, at),
        length: u32_at(store, at + 4),
        line: u32_at(store, at + 8),
        column: u32_at(store, at + 12),
    }
}

// Decimal parts at an offset, with an uncertainty that was read.
fn parts_at(store: &[u8], at: usize, uncertainty: u32) -> Parts
    requires { at + 18 ≤ length store.now }
    ensures { result ≡ parts_of (drop at store.now) uncertainty }
{
    Parts {
        sign: store[at],
        integer: u32_at(store, at + 1),
        fraction: u64_at(store, at + 5),
        places: store[at + 13],
        exponent: u32_at(store, at + 14),
        uncertainty,
    }
}

// P and a number.
#[tactic(auto, unfolding(crate::specs::Entries::plain_fields))]
fn plain_fields(store: &[u8], at: usize, number: u32) -> Fields
    requires { at + 16 ≤ length store.now }
    ensures { result ≡ plain_fields (drop at store.now) number }
{
    Fields {
        token: token_at(store, at),
        number,
        parts: Parts::default(),
    }
}

// P and decimal parts.
fn parts_fields(store: &[u8], at: usize, uncertainty: u32) -> Fields
    requires { at + 34 ≤ length store.now }
    ensures { result ≡ parts_fields (drop at store.now) uncertainty }
{
    Fields {
        token: token_at(store, at),
        number: 0,
        parts: parts_at(store, at + Kind::PLACE, uncertainty),
    }
}

// A body by its shape.
#[tactic(auto, unfolding(crate::specs::Entries::fields_of, kinds::specs::Kinds::shape_length))]
fn fields_at(store: &[u8], at: usize, shape: Shape) -> Fields
    requires { at + shape_length shape ≤ length store.now }
    ensures { result ≡ fields_of shape (drop at store.now) }
{
    match shape {
        Shape::Empty => Fields::default(),
        Shape::Place => plain_fields(store, at, 0),
        Shape::Content | Shape::Count => plain_fields(store, at, u32_at(store, at + Kind::PLACE)),
        Shape::Parts => parts_fields(store, at, 0),
        Shape::PartsUncertain => parts_fields(
            store,
            at,
            u32_at(store, at + (Kind::PLACE + Kind::PARTS)),
        ),
    }
}

// The record at an offset of any bytes.
pub fn read_record(store: &[u8], at: usize) -> Option<Entry>
    ensures { result ≡ entry_at store.now at }
{
    let kind = Kind::of(*store.get(at)?);
    if matches!(kind, Kind::NoKind) {
        return None;
    }
    let body = at + 1;
    let shape = kind.shape();
    let length = shape.length();
    if store.len() - body < length {
        return None;
    }
    Some(Entry {
        kind,
        fields: fields_at(store, body, shape),
        next: body + length,
    })
}
