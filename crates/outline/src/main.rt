// Document 01's outline program: the records of the text on standard input, a line for each, or the refusal.
#![tactic(auto)]

use harness::{fields, input, parts};
use kinds::Kind;
use places::Report;
use rules::Reading;
use std::io::Write;
use std::{fmt, io};

// The longest text that is taken, and the bytes of the store.
const LIMIT: usize = 65536;

// A record's kind, and the fields of its body: none, or a place. Each takes four bytes, the lowest first.
#[derive(Clone, Copy)]
struct Record<'a> {
    kind: u8,
    body: &'a [u8],
}

impl fmt::Display for Record<'_> {
    fn fmt<W: fmt::Write>(&self, f: &mut fmt::Formatter<W>) -> fmt::Result {
        write!(f, "{}", self.kind)?;
        for field in self.body.as_chunks::<4>().0 {
            write!(f, " {}", u32::from_le_bytes(*field))?;
        }
        Ok(())
    }
}

// A line for each record, and that they end.
fn say_records<W: Write>(out: &mut W, outline: &[u8]) -> io::Result<()> {
    let mut rest = outline;
    while let Some((kind, body, behind)) = fields::split_record(rest, Kind::outline_length) {
        writeln!(out, "{}", Record { kind, body })?;
        rest = behind;
    }
    writeln!(out, "end")
}

fn say_refusal<W: Write>(out: &mut W, r: Report) -> io::Result<()> {
    writeln!(
        out,
        "refused {} {} {} {}",
        r.number, r.offset, r.line, r.column
    )
}

fn say_outline<W: Write>(out: &mut W, text: &[u8]) -> io::Result<()> {
    if LIMIT < text.len() {
        return writeln!(out, "input over {LIMIT} bytes");
    }
    let mut store = input::large_buffer(); // it has LIMIT bytes
    let report = outlining::report(outlining::outline(Reading::First, text, &mut store));
    if report.number != 0 {
        return say_refusal(out, report);
    }
    say_records(out, parts::part(&store, 0, report.first))
}

// Room for a text and one byte more. It stands in a function of its own, since its caller's proof then knows its length
// and need not count it.
fn room() -> [u8; LIMIT + 1] {
    [0u8; LIMIT + 1]
}

fn main(rt: HostRuntime) -> io::Result<()> {
    let mut text = room();
    let n = input::read_full(&mut rt.stdin(), &mut text)?;
    say_outline(&mut rt.stdout(), &text[..n])
}
