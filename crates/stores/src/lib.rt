// Stores: judging whether one is sound by a reading's rules, looking contents up, and walking from record to record.
#![tactic(auto)]

ghost use Rattle.std.specs.Prelude.{◌≡◌, ◌+◌, ◌<◌};
ghost use Rattle.entries.specs.Entries.{whole};
ghost use Rattle.entries.specs.Walk.{entries};
ghost use Rattle.stores.specs.Soundness.{follows, kept, takes, filled, sound};
ghost use Rattle.stores.specs.Content.{nth, part_of, content_at, content_report, part_bytes};
ghost use Rattle.stores.specs.Records.{walked_at};

use entries::{Entry, Fields};
use kinds::Kind;
use places::Report;
use rules::Reading;

// Whether a record's content, if it has one, starts at an offset of the area.
#[tactic(auto, unfolding(crate::specs::Soundness::follows))]
fn starts_there(from: usize, kind: Kind, fields: Fields) -> bool
    ensures { result ≡ follows from kind fields }
{
    !contents::has_content(kind) || fields.number as usize == from
}

// Whether a record's content starts where the one before it ends, and it keeps its own rule. In this order: a content
// that lies over another is not looked at, so that a walk's time stays in proportion to store and area.
#[tactic(auto, unfolding(crate::specs::Soundness::kept))]
fn is_kept(reading: Reading, area: &[u8], from: usize, kind: Kind, fields: Fields) -> bool
    ensures { result ≡ kept reading area.now from kind fields }
{
    starts_there(from, kind, fields) && contents::keeps_rule(reading, area, kind, fields)
}

// How much of the area a record's content takes.
#[tactic(auto, unfolding(crate::specs::Soundness::takes))]
fn taken(kind: Kind, fields: Fields) -> usize
    ensures { result ≡ takes kind fields }
{
    if contents::has_content(kind) {
        contents::content_length(kind, fields)
    } else {
        0
    }
}

// Whether each content is readable and inside the area, and they fill it in order: from record to record, as nesting goes.
fn is_filled(reading: Reading, store: &[u8], area: &[u8]) -> bool
    ensures { result ≡ filled reading (entries store.now) area.now }
{
    let mut from = 0;
    let mut at = 0;
    while at < store.len() {
        let Some(Entry { kind, fields, next }) = entries::read_record(store, at) else {
            return false;
        };
        if !is_kept(reading, area, from, kind, fields) {
            return false;
        }
        from += taken(kind, fields);
        at = next;
    }
    from == area.len()
}

// Whether a store is sound, of any bytes. A store and its area stay two slices: exported functions lend them one by
// one, and the theorems of what Read wrote speak of each alone.
#[tactic(auto, unfolding(crate::specs::Soundness::sound))]
pub fn is_sound(reading: Reading, store: &[u8], area: &[u8]) -> bool
    ensures { result ≡ sound reading store.now area.now }
{
    nesting::is_nested(reading, store) && is_filled(reading, store, area)
}

// The part of the area that holds a content.
#[derive(Clone, Copy)]
pub struct Part {
    pub from: usize,
    pub size: usize,
}

// Why there is none: 12, or 14.
#[derive(Clone, Copy)]
pub enum ContentError {
    NotSound,
    NoContent,
}

// The record at an offset: its kind's number, what it holds, the part of the area that holds its content, and where
// the next one starts.
#[derive(Clone, Copy)]
pub struct Walked {
    pub number: u8,
    pub fields: Fields,
    pub from: usize,
    pub size: usize,
    pub next: usize,
}

// The part of the area that a record's content takes.
#[tactic(auto, unfolding(crate::specs::Content::part_of))]
fn part_of(kind: Kind, fields: Fields) -> Result<Part, ContentError>
    ensures { result ≡ part_of (whole kind fields 0) }
{
    if !contents::has_content(kind) {
        return Err(ContentError::NoContent);
    }
    Ok(Part {
        from: fields.number as usize,
        size: contents::content_length(kind, fields),
    })
}

// The part of a record by its number, the store not being judged.
fn part_at(store: &[u8], number: usize) -> Result<Part, ContentError>
    ensures { result ≡ part_of (nth (entries store.now) number) }
{
    let mut left = number;
    let mut at = 0;
    while at < store.len() {
        let Some(Entry { kind, fields, next }) = entries::read_record(store, at) else {
            return Err(ContentError::NoContent);
        };
        if left == 0 {
            return part_of(kind, fields);
        }
        left -= 1;
        at = next;
    }
    Err(ContentError::NoContent)
}

// CONTENT: where the content of a record, by its number from 0, stands.
#[tactic(auto, unfolding(crate::specs::Content::content_at))]
pub fn find_content(
    reading: Reading,
    store: &[u8],
    area: &[u8],
    number: usize,
) -> Result<Part, ContentError>
    ensures { result ≡ content_at reading store.now area.now number }
{
    if !is_sound(reading, store, area) {
        return Err(ContentError::NotSound);
    }
    part_at(store, number)
}

// CONTENT: the part of the area that holds it; an empty one on refusal.
pub fn content_part<'a>(reading: Reading, store: &[u8], area: &'a [u8], number: usize) -> &'a [u8]
    ensures { result.now ≡ part_bytes area.now (content_at reading store.now area.now number) }
{
    let Ok(part) = find_content(reading, store, area, number) else {
        return &area[0..0];
    };
    &area[part.from..part.from + part.size]
}

// The answer in document 01's numbers.
#[tactic(auto, unfolding(crate::specs::Content::content_report, places::specs::Reports::refused_bare, places::specs::Reports::success))]
pub fn report(answer: Result<Part, ContentError>) -> Report
    ensures { result ≡ content_report answer }
{
    Report::bare(match answer {
        Ok(_) => 0,
        Err(ContentError::NotSound) => 12,
        Err(ContentError::NoContent) => 14,
    })
}

// The record at an offset of any bytes.
#[tactic(auto, unfolding(crate::specs::Records::walked_at, crate::specs::Records::walked_of, crate::specs::Records::answered))]
pub fn record_at(store: &[u8], area: &[u8], at: usize) -> Option<Walked>
    ensures { result ≡ walked_at store.now area.now at }
{
    let Some(Entry { kind, fields, next }) = entries::read_record(store, at) else {
        return None;
    };
    let number = kind.number();
    if !contents::has_content(kind) {
        return Some(Walked {
            number,
            fields,
            from: 0,
            size: 0,
            next,
        });
    }
    if !contents::lies_inside(area.len(), kind, fields) {
        return None;
    }
    Some(Walked {
        number,
        fields,
        from: fields.number as usize,
        size: contents::content_length(kind, fields),
        next,
    })
}
