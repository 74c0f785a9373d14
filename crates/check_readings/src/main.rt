// Runs whole texts through Read and Outline. Each line of standard input is a letter that names the service, a space and a text, in which `\` and two hexadecimal digits stand
// for a byte. It is written back, and below it the answer in document 01's numbers (refusal number, offset, line, column, detail, both lengths), whether all bytes that are not
// counted kept their values, the records of the store, field by field, and the area. Lines that are empty or start with `#` are written back as they are.
#![tactic(auto)]

mod shown;

use harness::say::{Answer, Text};
use harness::{input, parts, vectors};
use kinds::Kind;
use places::Report;
use rules::Reading;
use std::io;
use std::io::Write;

// The bytes of the store and of the area, and what stands in them before.
const ROOM: usize = 512;

const BEFORE: u8 = 170;

fn say_answer<W: Write>(out: &mut W, report: Report, kept: bool) -> io::Result<()> {
    let rest = if kept {
        "the rest kept"
    } else {
        "THE REST CHANGED"
    };
    writeln!(out, "->{}, {rest}", Answer(report))
}

// Read of a vector's text, with so much room for the store and for the area.
fn read<W: Write>(
    out: &mut W,
    reading: Reading,
    s: &[u8],
    store_room: usize,
    area_room: usize,
) -> io::Result<()> {
    let mut buffer = input::buffer();
    let mut store = [BEFORE; ROOM];
    let mut area = [BEFORE; ROOM];
    let report = reading::report(reading::read(
        reading,
        vectors::text(s, &mut buffer),
        parts::room(&mut store, store_room),
        parts::room(&mut area, area_room),
    ));
    let m = parts::counted(report, report.first);
    let k = parts::counted(report, report.second);
    let kept = parts::is_all(&store, m, BEFORE) && parts::is_all(&area, k, BEFORE);
    say_answer(out, report, kept)?;
    if report.number != 0 {
        return Ok(());
    }
    shown::records(out, parts::part(&store, 0, m), Kind::body_length)?;
    writeln!(out, "   area [{}]", Text(parts::part(&area, 0, k)))
}

// Outline of a vector's text, with so much room for the store.
fn outline<W: Write>(out: &mut W, reading: Reading, s: &[u8], room: usize) -> io::Result<()> {
    let mut buffer = input::buffer();
    let mut store = [BEFORE; ROOM];
    let report = outlining::report(outlining::outline(
        reading,
        vectors::text(s, &mut buffer),
        parts::room(&mut store, room),
    ));
    let m = parts::counted(report, report.first);
    say_answer(out, report, parts::is_all(&store, m, BEFORE))?;
    shown::records(out, parts::part(&store, 0, m), Kind::outline_length)
}

// The rooms stand before the text.
fn read_in_rooms<W: Write>(out: &mut W, reading: Reading, s: &[u8]) -> io::Result<()> {
    let (store_room, rest) = vectors::number(s);
    let (area_room, text) = vectors::number(rest);
    read(out, reading, text, store_room, area_room)
}

fn outline_in_room<W: Write>(out: &mut W, reading: Reading, s: &[u8]) -> io::Result<()> {
    let (room, text) = vectors::number(s);
    outline(out, reading, text, room)
}

// r: Read. o: Outline. R and O: the same, with so much room for the store, and for Read the area. s, p, S and P: as these, by the strict
// reading.
fn run_vector<W: Write>(out: &mut W, letter: u8, s: &[u8]) -> io::Result<()> {
    writeln!(out)?;
    match letter {
        b'r' => read(out, Reading::First, s, ROOM, ROOM),
        b'o' => outline(out, Reading::First, s, ROOM),
        b's' => read(out, Reading::Strict, s, ROOM, ROOM),
        b'p' => outline(out, Reading::Strict, s, ROOM),
        b'R' => read_in_rooms(out, Reading::First, s),
        b'O' => outline_in_room(out, Reading::First, s),
        b'S' => read_in_rooms(out, Reading::Strict, s),
        b'P' => outline_in_room(out, Reading::Strict, s),
        _ => Ok(()),
    }
}

fn main(rt: HostRuntime) -> io::Result<()> {
    input::each_vector(&mut rt.stdin(), &mut rt.stdout(), run_vector)
}
