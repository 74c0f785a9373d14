// One service on one store, and its answer written out.
use crate::services;
use harness::parts::{counted, is_all, part, room};
use harness::say::{Answer, Numbers, Text};
use harness::stores::Pair;
use rules::Reading;
use std::io;
use std::io::Write;
use stores::{Part, Walked};

pub fn judged<W: Write>(out: &mut W, reading: Reading, pair: Pair<'_>) -> io::Result<()> {
    write!(out, " -> {}", services::judge(reading, pair, true))
}

pub fn names<W: Write>(out: &mut W, reading: Reading, pair: Pair<'_>) -> io::Result<()> {
    let answer = naming::report(naming::check_names(reading, pair.store, pair.area));
    write!(out, " ->{}", Answer(answer))
}

// Content: the answer, of a part where it starts and how long it is, and the part's bytes.
pub fn content<W: Write>(
    out: &mut W,
    reading: Reading,
    pair: Pair<'_>,
    number: usize,
) -> io::Result<()> {
    let found = stores::find_content(reading, pair.store, pair.area, number);
    write!(out, " -> {}", stores::report(found).number)?;
    if let Ok(Part { from, size }) = found {
        write!(out, " {from} {size}")?;
    }
    let bytes = stores::content_part(reading, pair.store, pair.area, number);
    write!(out, " [{}]", Text(bytes))
}

// The record at an offset: its kind, its fields, the part of the area, and where the next one starts.
pub fn walked<W: Write>(out: &mut W, pair: Pair<'_>, at: usize) -> io::Result<()> {
    match stores::record_at(pair.store, pair.area, at) {
        Some(
            Walked {
                number,
                fields,
                from,
                size,
                next,
            },
        ) => {
            write!(out, " -> {number}{} ", Numbers(fields))?;
            write!(out, "{from} {size} {next}")
        }
        None => write!(out, " -> 14"),
    }
}

// What stands in the text before it is rendered.
const BEFORE: u8 = 170;

// Render with so much room: the answer, whether all bytes that are not counted kept their values, and the text.
pub fn rendered<W: Write>(
    out: &mut W,
    reading: Reading,
    pair: Pair<'_>,
    size: usize,
) -> io::Result<()> {
    let mut text = [BEFORE; 512];
    let answer = rendering::report(rendering::render(
        reading,
        pair.store,
        pair.area,
        room(&mut text, size),
    ));
    let length = counted(answer, answer.first);
    write!(out, " ->{}", Answer(answer))?;
    if !is_all(&text, length, BEFORE) {
        write!(out, ", THE REST CHANGED")?;
    }
    write!(out, " [{}]", Text(part(&text, 0, length)))
}
