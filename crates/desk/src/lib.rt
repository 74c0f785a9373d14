// Where writing stands, and what each record takes of it: the P of a token, the bytes of a record, the place behind a token.
#![tactic(auto)]

ghost use Rattle.std.specs.Prelude.{◌≡◌, ◌+◌, ◌≤◌, ◌<◌, ◌^◌, length};
ghost use Rattle.places.specs.Places.{IsPlace, place_at};
ghost use Rattle.desk.specs.Written.{token_at};
ghost use Rattle.desk.specs.Desk.{shaped_length, record_length, Going, IsToken};

use kinds::{Kind, Shape};
use places::Place;
use records::Token;
use rules::Reading;

// Where writing stands: the place in the text, and the offsets in the store and in the area.
#[derive(Clone, Copy)]
pub struct Cursor {
    pub place: Place,
    pub at: usize,
    pub area: usize,
}

// A text that is written, and what is lent for it. Read copies contents into the area (`full`), Outline does not.
// Where writing stands is no field of it: a Cursor goes along by value. As a field behind `&mut` it is stored and loaded at
// each token, and Read and Outline were a seventh slower on tables.
#[derive(Drop)]
pub struct Writer<'t, 'b> {
    pub reading: Reading,
    pub text: &'t [u8],
    pub full: bool,
    pub store: &'b mut [u8],
    pub area: &'b mut [u8],
}

impl Writer<'_, '_> {
    // Where writing goes on behind a token, with so many bytes more in the store and in the area.
    pub fn pass(&self, c: Cursor, kind: u8, size: usize, stored: usize, copied: usize) -> Cursor
        requires token { IsToken self.now.text.now kind c.place.offset size }
        requires going { Going self.now.text.now c }
        requires room { (c.at + stored ≤ length self.now.store.now) × (copied ≤ size) }
        ensures { result
            ≡ record { place = place_at self.now.text.now (c.place.offset + size); at = c.at + stored; area = c.area + copied } }
    {
        Cursor {
            place: behind(self.text, c.place, kind, size),
            at: c.at + stored,
            area: c.area + copied,
        }
    }
}

// P of the token at a place.
pub fn token_at(p: Place, size: usize) -> Token
    requires { (p.offset < 2 ^ 32) × (size < 2 ^ 32) × (p.line < 2 ^ 32) × (p.column < 2 ^ 32) }
    ensures { result ≡ token_at p size }
{
    let offset = p.offset;
    let line = p.line;
    let column = p.column;
    Token {
        offset: offset as u32,
        length: size as u32,
        line: line as u32,
        column: column as u32,
    }
}

// The bytes of a record, by the shape of its body: whoever writes a record knows it, and need not look its kind up.
// In the outline a body is P, but for one that is empty.
pub fn record_length(full: bool, shape: Shape) -> usize
    ensures { result ≡ shaped_length full shape }
{
    let body = shape.length();
    if full {
        return 1 + body;
    }
    if body == 0 {
        return 1;
    }
    1 + Kind::PLACE
}

// The bytes of a number's record.
pub fn number_length(full: bool, kind: u8) -> usize
    requires { (14 ≤ kind) × (kind ≤ 15) }
    ensures { result ≡ record_length full kind }
{
    if kind == Kind::UNCERTAIN {
        return record_length(full, Shape::PartsUncertain);
    }
    record_length(full, Shape::Parts)
}

// The place behind a token: only a text field has line ends in it.
pub fn behind(s: &[u8], p: Place, kind: u8, size: usize) -> Place
    requires { IsPlace s.now p × IsToken s.now kind p.offset size }
    ensures { result ≡ place_at s.now (p.offset + size) }
{
    let offset = p.offset;
    let line = p.line;
    let column = p.column;
    let end = offset + size;
    if kind == Kind::MULTILINE {
        return places::advance(s, p, end);
    }
    Place {
        offset: end,
        line,
        column: column + size,
    }
}
