// What C and Rust get: the structs of the exported functions' answers, and how a service's answer fills them.
#![tactic(auto)]

ghost use Rattle.std.specs.Prelude.{◌≡◌, cond, eqb};
ghost use Rattle.exports.specs.Exports.{exported, exported_part, exported_record, exported_fields};
ghost use Rattle.exports.specs.Exports.{no_reading, no_part, no_record, is_negative};

use entries::Fields;
use kinds::Kind;
use places::Report;
use stores::{ContentError, Part as Found, Walked};

// chuntarek_answer.
#[repr(C)]
#[derive(Clone, Copy)]
pub struct Answer {
    pub number: u64,
    pub offset: u64,
    pub line: u64,
    pub column: u64,
    pub detail: u64,
    pub first: u64,
    pub second: u64,
}

// chuntarek_part.
#[repr(C)]
#[derive(Clone, Copy)]
pub struct Part {
    pub start: u64,
    pub length: u64,
}

// chuntarek_record.
#[repr(C)]
#[derive(Clone, Copy)]
pub struct Record {
    pub number: u64,
    pub kind: u64,
    pub offset: u64,
    pub length: u64,
    pub line: u64,
    pub column: u64,
    pub start: u64,
    pub content: u64,
    pub tags: u64,
    pub sign: u64,
    pub integer: u64,
    pub fraction: u64,
    pub digits: u64,
    pub lowers: u64,
    pub exponent: u64,
    pub uncertainty: u64,
    pub next: u64,
}

// A report, number for number.
#[tactic(auto, unfolding(crate::specs::Exports::exported))]
pub fn numbers_of(r: Report) -> Answer
    ensures { result ≡ exported r }
{
    Answer {
        number: r.number as u64,
        offset: r.offset as u64,
        line: r.line as u64,
        column: r.column as u64,
        detail: r.detail as u64,
        first: r.first as u64,
        second: r.second as u64,
    }
}

// A number that names no reading.
const NO_READING: u64 = 24;

// The answer to a call that names no reading.
#[tactic(auto, unfolding(crate::specs::Exports::no_reading))]
pub fn no_reading() -> Answer
    ensures { result ≡ no_reading }
{
    Answer {
        number: NO_READING,
        offset: 0,
        line: 0,
        column: 0,
        detail: 0,
        first: 0,
        second: 0,
    }
}

// An empty part at 0.
#[tactic(auto, unfolding(crate::specs::Exports::no_part))]
pub fn no_part() -> Part
    ensures { result ≡ no_part }
{
    Part {
        start: 0,
        length: 0,
    }
}

// Where a content stands in the area; the empty part where there is none.
#[tactic(auto, unfolding(crate::specs::Exports::exported_part))]
pub fn part_of(answer: Result<Found, ContentError>) -> Part
    ensures { result ≡ exported_part answer }
{
    match answer {
        Ok(Found { from, size }) => Part {
            start: from as u64,
            length: size as u64,
        },
        Err(_) => no_part(),
    }
}

// Whether four bytes in two's complement are below 0, as a number.
#[tactic(auto, unfolding(crate::specs::Exports::is_negative))]
fn negative(e: u32) -> u64
    ensures { result ≡ cond (is_negative e) 1 0 }
{
    (2147483648 <= e) as u64
}

// Only a loop counts tags.
fn tags_of(kind: u8, number: u32) -> u64
    ensures { result ≡ cond (eqb kind 5) number 0 }
{
    if kind == Kind::LOOP { number as u64 } else { 0 }
}

// A record that was met, field by field.
#[tactic(auto, unfolding(crate::specs::Exports::exported_fields, crate::specs::Exports::magnitude, crate::specs::Exports::is_negative, entries::specs::Entries::exponent_size))]
fn met(kind: u8, f: Fields, from: usize, size: usize, next: usize) -> Record
    ensures { result ≡ exported_fields kind f from size next }
{
    let token = f.token;
    let parts = f.parts;
    let exponent = parts.exponent;
    Record {
        number: 0,
        kind: kind as u64,
        offset: token.offset as u64,
        length: token.length as u64,
        line: token.line as u64,
        column: token.column as u64,
        start: from as u64,
        content: size as u64,
        tags: tags_of(kind, f.number),
        sign: parts.sign as u64,
        integer: parts.integer as u64,
        fraction: parts.fraction,
        digits: parts.places as u64,
        lowers: negative(exponent),
        exponent: entries::exponent_size(exponent) as u64,
        uncertainty: parts.uncertainty as u64,
        next: next as u64,
    }
}

// No record, for the reason of this number, and all else 0.
#[tactic(auto, unfolding(crate::specs::Exports::no_record))]
fn none(number: u64) -> Record
    ensures { result ≡ no_record number }
{
    Record {
        number,
        kind: 0,
        offset: 0,
        length: 0,
        line: 0,
        column: 0,
        start: 0,
        content: 0,
        tags: 0,
        sign: 0,
        integer: 0,
        fraction: 0,
        digits: 0,
        lowers: 0,
        exponent: 0,
        uncertainty: 0,
        next: 0,
    }
}

// What a walk met.
#[tactic(auto, unfolding(crate::specs::Exports::exported_record))]
pub fn record_of(walked: Option<Walked>) -> Record
    ensures { result ≡ exported_record walked }
{
    match walked {
        Some(
            Walked {
                number,
                fields,
                from,
                size,
                next,
            },
        ) => met(number, fields, from, size, next),
        None => none(14),
    }
}

// No record, as the call names no reading.
pub fn no_record() -> Record
    ensures { result ≡ no_record 24 }
{
    none(NO_READING)
}
