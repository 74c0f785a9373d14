// One leaf on one text, and its answer written out.
ghost use Rattle.std.specs.Prelude.{◌≤◌, length};

use entries::Entry;
use found::Why;
use harness::say::{Hex, Numbers, YesNo};
use kinds::{Kind, Shape};
use numbers::{Decimal, Number};
use places::Place;
use records::Token;
use rules::Reading;
use std::io::Write;
use std::{fmt, io};
use values::Value;

// What the leaf that a letter names answers to a text. `R`, `N`, `V` and `W` go by the strict reading; `W` looks for a value behind the text's first byte.
pub fn answer<W: Write>(out: &mut W, leaf: u8, s: &[u8]) -> io::Result<()> {
    match leaf {
        b'c' => classes(out, s),
        b'a' => write!(out, " {}", text::ascii_end(s)),
        b'p' => place(out, places::place_at(s, s.len())),
        b'g' => write!(out, " {}", gaps::gap_end(s, 0)),
        b'm' => moved(out, s),
        b'w' => write!(out, " {}", words::parse_identifier(s, 0)),
        b'r' => reserved(out, Reading::First, s),
        b'R' => reserved(out, Reading::Strict, s),
        b'q' => closing(out, quotes::parse_enclosed(s, 1, b'\'')),
        b'd' => closing(out, quotes::parse_enclosed(s, 1, b'"')),
        b'f' => closing(out, quotes::parse_multiline_string(s, 1)),
        b'n' => number(out, Reading::First, s),
        b'N' => number(out, Reading::Strict, s),
        b'v' => value(out, Reading::First, s, 0),
        b'V' => value(out, Reading::Strict, s, 0),
        b'W' => value(out, Reading::Strict, s, 1),
        b'k' => kind(out, s),
        b's' => record(out, s),
        b'u' => number_record(out, s),
        b'e' => entry(out, s),
        _ => Ok(()),
    }
}

// Of the first byte: is it a digit, of a line end, space, the end of a word, ordinary.
fn classes<W: Write>(out: &mut W, s: &[u8]) -> io::Result<()> {
    let Some(&b) = s.first() else {
        return Ok(());
    };
    write!(
        out,
        " {} {} {} {} {}",
        YesNo(text::is_digit(b)),
        YesNo(text::is_eol(b)),
        YesNo(text::is_space(b)),
        YesNo(text::ends_word(b)),
        YesNo(words::is_ordinary(b)),
    )
}

fn place<W: Write>(out: &mut W, p: Place) -> io::Result<()> {
    write!(out, " {} {} {}", p.offset, p.line, p.column)
}

// The place behind the space and comments that a text starts with.
fn moved<W: Write>(out: &mut W, s: &[u8]) -> io::Result<()> {
    let start = Place {
        offset: 0,
        line: 1,
        column: 1,
    };
    place(out, gaps::trim_comments_and_whitespace(s, start))
}

fn reserved<W: Write>(out: &mut W, reading: Reading, s: &[u8]) -> io::Result<()> {
    write!(out, " {}", YesNo(keywords::is_reserved(reading, s, 0)))
}

fn closing<W: Write>(out: &mut W, end: Option<usize>) -> io::Result<()> {
    match end {
        Some(end) => write!(out, " {end}"),
        None => write!(out, " nothing"),
    }
}

// A number, each part behind a space: sign, integer, fraction, fraction digits, exponent, uncertainty.
#[derive(Clone, Copy)]
struct Digits(Decimal);

impl fmt::Display for Digits {
    fn fmt<W: fmt::Write>(&self, f: &mut fmt::Formatter<W>) -> fmt::Result {
        let d = self.0;
        write!(f, " {} {}", YesNo(d.minus), d.integer)?;
        write!(f, " {} {}", d.fraction, d.places)?;
        write!(f, " {} {}", YesNo(d.lowers), d.exponent)?;
        write!(f, " {} {}", YesNo(d.uncertain), d.uncertainty)
    }
}

fn number<W: Write>(out: &mut W, reading: Reading, w: &[u8]) -> io::Result<()> {
    match numbers::parse_numeric(reading, w) {
        Number::Not => write!(out, " no number"),
        Number::Over => write!(out, " over"),
        Number::Is(d) => write!(out, "{}", Digits(d)),
    }
}

// Why no value stands where one may.
fn reason(why: Why) -> &'static str {
    match why {
        Why::AtEnd => "end",
        Why::Reserved => "reserved",
        Why::NoStart => "no start",
        Why::OpenQuote => "open quote",
        Why::OpenField => "open field",
        Why::Joined => "joined",
    }
}

// The value at an offset of a text. Lengths of values take four bytes.
fn value<W: Write>(out: &mut W, reading: Reading, s: &[u8], at: usize) -> io::Result<()> {
    if (u32::MAX as usize) < s.len() {
        return Ok(());
    }
    match values::parse_value(reading, s, at) {
        Value::Token { kind, size } => write!(out, " {kind} {size}"),
        Value::Number { decimal, size } => write!(out, " number {size}{}", Digits(decimal)),
        Value::Over => write!(out, " over"),
        Value::Missing { why } => write!(out, " none: {}", reason(why)),
    }
}

fn integer_of(w: &[u8]) -> u32 {
    match numbers::parse_numeric(Reading::First, w) {
        Number::Is(d) => d.integer,
        _ => 0,
    }
}

// The number written in a text's first word, and what stands behind it.
fn split_number(s: &[u8]) -> (u32, &[u8]) {
    let (_, from_word) = s.split_at(gaps::gap_end(s, 0));
    let (word, rest) = from_word.split_at(words::parse_identifier(from_word, 0));
    (integer_of(word), rest)
}

// The number as a kind's, or 0.
fn kind_of(number: u32) -> u8 {
    u8::try_from(number).unwrap_or(0)
}

// Of a kind's number: the bytes of its body, of its body in the outline, its marks, and those that stand before the content.
fn kind<W: Write>(out: &mut W, s: &[u8]) -> io::Result<()> {
    let number = kind_of(integer_of(s));
    let k = Kind::of(number);
    write!(
        out,
        " {} {} {} {}",
        Kind::body_length(number),
        Kind::outline_length(number),
        k.marks(),
        k.opening(),
    )
}

// A record into a store of 22 bytes, one more than it takes at most: kind, offset, length, line, column, and the area offset or the number of tags.
fn record<W: Write>(out: &mut W, s: &[u8]) -> io::Result<()> {
    let (kind, rest) = split_number(s);
    let (offset, rest) = split_number(rest);
    let (length, rest) = split_number(rest);
    let (line, rest) = split_number(rest);
    let (column, rest) = split_number(rest);
    let (last, _) = split_number(rest);
    let token = Token {
        offset,
        length,
        line,
        column,
    };
    let mut store = [255u8; 22];
    put_record(&mut store, kind_of(kind), token, last);
    write!(out, "{}", Hex(&store))
}

fn put_record(rest: &mut [u8], kind: u8, token: Token, last: u32)
    requires { 21 ≤ length rest.old }
{
    match Kind::of(kind).shape() {
        Shape::Empty => records::write_end(rest),
        Shape::Place => records::write_place(rest, kind, token),
        Shape::Content => records::write_content(rest, kind, token, last),
        Shape::Count => records::write_loop(rest, token, last),
        Shape::Parts | Shape::PartsUncertain => (),
    }
}

// A number's record into a store of 40 bytes, one more than it takes at most.
fn number_record<W: Write>(out: &mut W, w: &[u8]) -> io::Result<()> {
    let Number::Is(d) = numbers::parse_numeric(Reading::First, w) else {
        return Ok(());
    };
    let token = Token {
        offset: 7,
        length: 2,
        line: 258,
        column: 1,
    };
    let mut store = [255u8; 40];
    if d.uncertain {
        records::write_uncertain(&mut store, token, d);
    } else {
        records::write_number(&mut store, token, d);
    }
    write!(out, "{}", Hex(&store))
}

// The record that bytes start with: its kind, its fields, and where the next record starts.
fn entry<W: Write>(out: &mut W, s: &[u8]) -> io::Result<()> {
    match entries::read_record(s, 0) {
        Some(Entry { kind, fields, next }) => {
            write!(out, " {}{} {next}", kind.number(), Numbers(fields))
        }
        None => write!(out, " nothing"),
    }
}
