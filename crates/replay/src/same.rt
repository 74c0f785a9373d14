// Whether the services answer as an entry of the list says, and as each other.
use crate::floats;
use crate::list::Entry;
use entries::Fields;
use harness::fields::split_record;
use harness::parts::part;
use kinds::Kind;
use places::Report;
use rules::Reading;
use std::fmt;
use stores::Walked;

// What differs.
#[derive(Clone, Copy)]
pub enum Difference {
    CutOff,
    Answer,
    Contents,
    Records,
    Outline,
}

impl fmt::Display for Difference {
    fn fmt<W: fmt::Write>(&self, f: &mut fmt::Formatter<W>) -> fmt::Result {
        f.write_str(match self {
            Difference::CutOff => "is cut off",
            Difference::Answer => "has another answer",
            Difference::Contents => "has other contents",
            Difference::Records => "has other records",
            Difference::Outline => "has another outline",
        })
    }
}

// The source keeps no column for 3 and 7.
fn told_column(report: Report) -> usize {
    match report.number {
        3 | 7 => 0,
        _ => report.column,
    }
}

// The source tells no reason.
fn told_detail(report: Report) -> usize {
    match report.number {
        6 | 7 => 0,
        _ => report.detail,
    }
}

// Refusal number, line, column and detail.
fn same_answer(entry: Entry<'_>, report: Report) -> bool {
    report.number == entry.number
        && report.line == entry.line
        && told_column(report) == entry.column
        && told_detail(report) == entry.detail
}

// The source doesn't tell quoted text from bare.
fn told_kind(kind: u8) -> u8 {
    match kind {
        11..=13 => 10,
        _ => kind,
    }
}

// What stands beside a kind in the list: a loop's tags, an uncertainty, or a content's length.
fn amount(kind: u8, fields: Fields, size: usize) -> u64 {
    match kind {
        5 => u64::from(fields.number),
        15 => u64::from(fields.parts.uncertainty),
        _ => size as u64,
    }
}

// The numbers that are left behind a record's, which is the first of them if the record is one; none if it is another.
fn numbers_behind<'a>(kind: u8, fields: Fields, numbers: &'a [u8]) -> Option<&'a [u8]> {
    if kind < 14 {
        return Some(numbers);
    }
    let (bits, rest) = numbers.split_first_chunk::<8>()?;
    if u64::from_le_bytes(*bits) != floats::bits(fields.parts) {
        return None;
    }
    Some(rest)
}

// Whether a store's records have the list's kinds, amounts and numbers.
fn same_records(entry: Entry<'_>, store: &[u8], area: &[u8]) -> bool {
    let mut at = 0;
    let mut numbers = entry.numbers;
    for [told, a, b, c, d] in entry.records.as_chunks::<5>().0 {
        let Some(
            Walked {
                number: kind,
                fields,
                size,
                next,
                ..
            },
        ) = stores::record_at(store, area, at)
        else {
            return false;
        };
        let told_amount = u64::from(u32::from_le_bytes([*a, *b, *c, *d]));
        if *told != told_kind(kind) || told_amount != amount(kind, fields, size) {
            return false;
        }
        let Some(behind) = numbers_behind(kind, fields, numbers) else {
            return false;
        };
        numbers = behind;
        at = next;
    }
    at == store.len() && numbers.is_empty()
}

// Whether an outline has the kinds and places of a store.
fn same_outline(store: &[u8], outline: &[u8]) -> bool {
    let mut records = store;
    let mut places = outline;
    while let Some((kind, place, others)) = split_record(places, Kind::outline_length) {
        let Some((stored, body, behind)) = split_record(records, Kind::body_length) else {
            return false;
        };
        if stored != kind || !body.starts_with(place) {
            return false;
        }
        records = behind;
        places = others;
    }
    records.is_empty()
}

// Whether two refusals are the same.
fn same_refusal(a: Report, b: Report) -> bool {
    a.number == b.number
        && a.offset == b.offset
        && a.line == b.line
        && a.column == b.column
        && a.detail == b.detail
}

// Whether Outline answers as Read did, which left this store.
fn outlines(text: &[u8], read: Report, store: &[u8]) -> bool {
    let mut room = [0u8; 4096];
    let outlined = outlining::report(outlining::outline(Reading::First, text, &mut room));
    same_refusal(read, outlined) && same_outline(store, part(&room, 0, outlined.first))
}

// Reads an entry's text anew, and holds what is read to the entry. A refusal leaves no records and no area.
pub fn judge(entry: Entry<'_>) -> Result<(), Difference> {
    let mut store = [0u8; 4096];
    let mut area = [0u8; 256];
    let read = reading::report(reading::read(Reading::First, entry.text, &mut store, &mut area));
    let store = part(&store, 0, read.first);
    let area = part(&area, 0, read.second);
    if !same_answer(entry, read) {
        return Err(Difference::Answer);
    }
    if area != entry.area {
        return Err(Difference::Contents);
    }
    if !same_records(entry, store, area) {
        return Err(Difference::Records);
    }
    if !outlines(entry.text, read, store) {
        return Err(Difference::Outline);
    }
    Ok(())
}
