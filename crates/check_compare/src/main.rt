// Runs worked vectors through Compare. Two texts are read, and what is made of them compared. Each line of standard input is a letter and what it needs, in which `\` and two
// hexadecimal digits stand for a byte of a text:
//
// g NUMBER: by this reading from here on; the first at the start.   o TEXT: the old store and its area, as Read makes them.   n TEXT: the new one and its.
// c ROOM: the old with the new, in a list of so many bytes.   b ROOM: the new with the old.   s ROOM: the old with itself.
//
// It is written back with the answer: of Read its number, of Compare all numbers and, where it is done, each entry: its case and both record numbers. Lines that are empty
// or start with `#` are written back as they are.
#![tactic(auto)]

mod lists;

use harness::stores::{Buffers, Lengths};
use harness::{input, vectors};
use rules::Reading;
use std::io;
use std::io::Write;

// What Read makes of a text; an empty store where it is refused.
fn read<W: Write>(out: &mut W, reading: Reading, s: &[u8], made: &mut Buffers) -> io::Result<()> {
    let read = made.read(reading, s);
    made.have = match read.number {
        0 => Lengths {
            store: read.first,
            area: read.second,
        },
        _ => Lengths::default(),
    };
    write!(out, " -> {}", read.number)
}

fn run_vector<W: Write>(
    out: &mut W,
    letter: u8,
    s: &[u8],
    reading: Reading,
    old: &mut Buffers,
    new: &mut Buffers,
) -> io::Result<()> {
    let (room, _) = vectors::number(s);
    match letter {
        b'o' => read(out, reading, s, old)?,
        b'n' => read(out, reading, s, new)?,
        b'c' => lists::compared(out, reading, old.pair(), new.pair(), room)?,
        b'b' => lists::compared(out, reading, new.pair(), old.pair(), room)?,
        b's' => lists::compared(out, reading, old.pair(), old.pair(), room)?,
        _ => (),
    }
    writeln!(out)
}

fn main(rt: HostRuntime) -> io::Result<()> {
    let mut old = Buffers::empty();
    let mut new = Buffers::empty();
    let mut reading = Reading::First;
    input::each_vector(&mut rt.stdin(), &mut rt.stdout(), |out, letter, s| {
        if letter == b'g' {
            reading = vectors::reading(s, reading);
        }
        run_vector(out, letter, s, reading, &mut old, &mut new)
    })
}
