// Runs worked vectors through the services over stores, and damages stores byte by byte. A store and its area are built line by line; further lines ask for an answer. Each line
// of standard input is a letter and what it needs, in which bytes of a store are pairs of hexadecimal digits, and `\` and two of them stand for a byte of an area or a text:
//
// g NUMBER: by this reading from here on; the first at the start.   n: a new store and its area, both empty.   s BYTES: more of the store.   a TEXT: more of the area.
// t TEXT: the store and the area that Read makes of a text.
// j: is it sound?   x OFFSET BYTES: with these bytes of the store replaced?   y OFFSET TEXT: with these bytes of the area?   k STORE AREA: with so much of both?
// c NUMBER: a record's content.   m: the name check.   r ROOM: the rendering.   w OFFSET: the record at an offset.   d: the damage.
//
// It is written back with the answer. Lines that are empty or start with `#` are written back as they are.
#![tactic(auto)]

mod answers;
mod damage;
mod services;

use harness::parts::room;
use harness::say::Answer;
use harness::stores::{Buffers, Lengths};
use harness::{input, vectors};
use rules::Reading;
use std::io;
use std::io::Write;

// The store and the area that Read makes of a text.
fn read<W: Write>(out: &mut W, reading: Reading, s: &[u8], made: &mut Buffers) -> io::Result<()> {
    let read = made.read(reading, s);
    made.have = Lengths {
        store: read.first,
        area: read.second,
    };
    write!(out, " ->{}", Answer(read))
}

// A line that builds the store and the area; any other leaves them.
fn build<W: Write>(
    out: &mut W,
    letter: u8,
    reading: Reading,
    s: &[u8],
    made: &mut Buffers,
) -> io::Result<()> {
    match letter {
        b'n' => made.have = Lengths::default(),
        b's' => {
            let end = made.have.store;
            made.have.store = vectors::unhex(s, &mut made.store, end);
        }
        b'a' => {
            let end = made.have.area;
            made.have.area = vectors::unfold(s, &mut made.area, end);
        }
        b't' => return read(out, reading, s, made),
        _ => (),
    }
    Ok(())
}

// Whether the store is sound with a change, which its buffers don't keep.
fn judge_changed<W: Write, F: FnOnce(&mut Buffers)>(
    out: &mut W,
    reading: Reading,
    made: &Buffers,
    change: F,
) -> io::Result<()>
    requires { F.IsAlwaysCallable change }
{
    let mut changed = *made;
    change(&mut changed);
    answers::judged(out, reading, changed.pair())
}

// Whether so much of the store and of the area is sound.
fn judge_part<W: Write>(
    out: &mut W,
    reading: Reading,
    s: &[u8],
    store: usize,
    made: &Buffers,
) -> io::Result<()> {
    let (area, _) = vectors::number(s);
    answers::judged(out, reading, made.first(Lengths { store, area }))
}

// What a line asks for; most start with a number.
fn answer<W: Write>(
    out: &mut W,
    letter: u8,
    reading: Reading,
    s: &[u8],
    made: &Buffers,
) -> io::Result<()> {
    let (number, rest) = vectors::number(s);
    match letter {
        b'j' => answers::judged(out, reading, made.pair()),
        b'x' => judge_changed(out, reading, made, |changed| {
            vectors::unhex(rest, &mut changed.store, number);
        }),
        b'y' => judge_changed(out, reading, made, |changed| {
            vectors::unfold(rest, &mut changed.area, number);
        }),
        b'k' => judge_part(out, reading, rest, number, made),
        b'm' => answers::names(out, reading, made.pair()),
        b'c' => answers::content(out, reading, made.pair(), number),
        b'r' => answers::rendered(out, reading, made.pair(), number),
        b'w' => answers::walked(out, made.pair(), number),
        _ => Ok(()),
    }
}

fn damage_all<W: Write>(out: &mut W, reading: Reading, made: &mut Buffers) -> io::Result<()> {
    let have = made.have;
    damage::run(
        out,
        reading,
        room(&mut made.store, have.store),
        room(&mut made.area, have.area),
    )
}

fn run_vector<W: Write>(
    out: &mut W,
    letter: u8,
    reading: Reading,
    s: &[u8],
    made: &mut Buffers,
) -> io::Result<()> {
    build(out, letter, reading, s, made)?;
    answer(out, letter, reading, s, made)?;
    writeln!(out)?;
    match letter {
        b'd' => damage_all(out, reading, made),
        _ => Ok(()),
    }
}

fn main(rt: HostRuntime) -> io::Result<()> {
    let mut made = Buffers::empty();
    let mut reading = Reading::First;
    input::each_vector(&mut rt.stdin(), &mut rt.stdout(), |out, letter, s| {
        if letter == b'g' {
            reading = vectors::reading(s, reading);
        }
        run_vector(out, letter, reading, s, &mut made)
    })
}
