// One record as its line: its token and LF, written into a lent text, and how long it is.
#![tactic(auto)]

ghost use Rattle.std.specs.Prelude.{◌≡◌, true, ◌+◌, ◌-◌, ◌≤◌, ◌<◌, length, take, drop};
ghost use Rattle.entries.specs.Entries.{whole};
ghost use Rattle.readable.specs.Tokens.{mark};
ghost use Rattle.contents.specs.Contents.{content_bytes, own_rule};
ghost use Rattle.record_lines.specs.Lines.{decimal_of, is_end, plain_line, line_of};
ghost use Rattle.record_lines.specs.Writing.{mark_of, opening_text, body_text, closing_text};
ghost use Rattle.record_lines.specs.Writing.{keeps_digits, is_writable, plain_length, line_length};
ghost use Rattle.numerals.specs.Written.{Wrote};

use entries::{Fields, Parts};
use kinds::{Kind, Shape};
use numbers::Decimal;
use rules::Reading;

// A part of a source, byte by byte, which the compiler makes wide: `copy_from_slice` would be a call of memmove, which the archive needs from
// nowhere else.
fn put_part(out: &mut [u8], at: usize, source: &[u8], from: usize, size: usize) -> usize
    requires { (at + size ≤ length out.old) × (size ≤ length source.now - from) }
    ensures { Wrote at (take size (drop from source.now)) out.old out.new result }
{
    for i in 0..size {
        out[at + i] = source[from + i];
    }
    at + size
}

// The decimal that stored parts stand for.
fn decimal_of(uncertain: bool, parts: Parts) -> Decimal
    ensures { result ≡ decimal_of uncertain parts }
{
    let sign = parts.sign;
    let places = parts.places;
    let exponent = parts.exponent;
    Decimal {
        minus: sign == 1,
        integer: parts.integer,
        fraction: parts.fraction,
        places: places as usize,
        lowers: 2147483648 <= exponent,
        exponent: entries::exponent_size(exponent),
        uncertain,
        uncertainty: parts.uncertainty,
    }
}

// A loop's end has no line.
#[tactic(auto, unfolding(crate::specs::Lines::is_end))]
fn is_end(kind: Kind) -> bool
    ensures { result ≡ is_end kind }
{
    matches!(kind, Kind::NoKind | Kind::LoopEnd)
}

// The byte that opens a token of one mark or two.
#[tactic(auto, unfolding(crate::specs::Writing::mark_of))]
fn mark_of(kind: Kind) -> u8
    ensures { result ≡ mark_of kind }
{
    match kind {
        Kind::Tag | Kind::LoopTag => b'_',
        Kind::Inapplicable => b'.',
        Kind::Unknown => b'?',
        Kind::SingleQuoted => b'\'',
        Kind::DoubleQuoted => b'"',
        Kind::Multiline => b';',
        _ => 0,
    }
}

// What opens a token: a keyword, a mark, or nothing.
fn put_opening(out: &mut [u8], at: usize, kind: Kind) -> usize
    requires { at + length (opening_text kind) ≤ length out.old }
    ensures { Wrote at (opening_text kind) out.old out.new result }
{
    match kind {
        Kind::NoKind | Kind::LoopEnd | Kind::Bare | Kind::Number | Kind::Uncertain | Kind::Quoted =>
            at,
        Kind::Block => put_part(out, at, b"data_", 0, 5),
        Kind::FrameOpen | Kind::FrameClose => put_part(out, at, b"save_", 0, 5),
        Kind::Loop => put_part(out, at, b"loop_", 0, 5),
        _ => numerals::put_byte(out, at, mark_of(kind)),
    }
}

// What stands in a token: its content or its number.
fn put_body(out: &mut [u8], at: usize, area: &[u8], kind: Kind, fields: Fields) -> usize
    requires { (is_writable area.now kind fields ≡ true) × (at + length (body_text area.now kind fields) ≤ length out.old) }
    ensures { Wrote at (body_text area.now kind fields) out.old out.new result }
{
    let shape = kind.shape();
    let token = fields.token;
    let parts = fields.parts;
    match shape {
        Shape::Content => put_part(
            out,
            at,
            area,
            fields.number as usize,
            token.length as usize - kind.marks(),
        ),
        Shape::Parts => numerals::put_number(out, at, decimal_of(false, parts)),
        Shape::PartsUncertain => numerals::put_number(out, at, decimal_of(true, parts)),
        _ => at,
    }
}

// The first byte of a part of a source, if it has one.
fn put_first(out: &mut [u8], at: usize, source: &[u8], from: usize, size: usize) -> usize
    requires { (at + length (mark (take size (drop from source.now))) ≤ length out.old) × (size ≤ length source.now - from) }
    ensures { Wrote at (mark (take size (drop from source.now))) out.old out.new result }
{
    if size == 0 {
        return at;
    }
    numerals::put_byte(out, at, source[from])
}

// What closes a token, and LF.
fn put_closing(out: &mut [u8], at: usize, area: &[u8], kind: Kind, fields: Fields) -> usize
    requires { (is_writable area.now kind fields ≡ true) × (at + length (closing_text kind (content_bytes area.now kind fields)) ≤ length out.old) }
    ensures { Wrote at (closing_text kind (content_bytes area.now kind fields)) out.old out.new result }
{
    match kind {
        Kind::SingleQuoted | Kind::DoubleQuoted | Kind::Multiline => {
            let end = numerals::put_byte(out, at, mark_of(kind));
            numerals::put_byte(out, end, b'\n')
        }
        Kind::Quoted => {
            let from = fields.number as usize;
            let size = contents::content_length(kind, fields);
            let end = put_first(out, at, area, from, size);
            numerals::put_byte(out, end, b'\n')
        }
        _ => numerals::put_byte(out, at, b'\n'),
    }
}

// A record's token and LF; of a loop's end nothing.
fn put_token(out: &mut [u8], at: usize, area: &[u8], kind: Kind, fields: Fields) -> usize
    requires { (is_writable area.now kind fields ≡ true) × (at + length (plain_line area.now kind fields) ≤ length out.old) }
    ensures { Wrote at (plain_line area.now kind fields) out.old out.new result }
{
    if is_end(kind) {
        return at;
    }
    let body = put_opening(out, at, kind);
    let closing = put_body(out, body, area, kind, fields);
    put_closing(out, closing, area, kind, fields)
}

// A record's line: a space first where the reading puts one.
pub fn write_line(
    reading: Reading,
    out: &mut [u8],
    at: usize,
    area: &[u8],
    kind: Kind,
    fields: Fields,
) -> usize
    requires { (own_rule reading area.now kind fields ≡ true) × (at + length (line_of reading area.now (whole kind fields 0)) ≤ length out.old) }
    ensures { Wrote at (line_of reading area.now (whole kind fields 0)) out.old out.new result }
{
    if contents::is_led(reading, area, kind, fields) {
        let token = numerals::put_byte(out, at, b' ');
        return put_token(out, token, area, kind, fields);
    }
    put_token(out, at, area, kind, fields)
}

// The length of a token and LF: that of one with content stands in the record. It is no twin of put_token: Render needs
// it before it may write, and to add up what is written would go over each content a second time.
fn plain_length(kind: Kind, fields: Fields) -> usize
    requires { keeps_digits kind fields ≡ true }
    ensures { result ≡ plain_length kind fields }
{
    let token = fields.token;
    let parts = fields.parts;
    match kind {
        Kind::NoKind | Kind::LoopEnd => 0,
        Kind::FrameClose | Kind::Loop => 6,
        Kind::Inapplicable | Kind::Unknown => 2,
        Kind::Number => 1 + numerals::number_length(decimal_of(false, parts)),
        Kind::Uncertain => 1 + numerals::number_length(decimal_of(true, parts)),
        _ => 1 + token.length as usize,
    }
}

// The length of a record's line.
pub fn line_length(reading: Reading, area: &[u8], kind: Kind, fields: Fields) -> usize
    requires { own_rule reading area.now kind fields ≡ true }
    ensures { result ≡ line_length reading area.now kind fields }
{
    let plain = plain_length(kind, fields);
    if contents::is_led(reading, area, kind, fields) {
        return 1 + plain;
    }
    plain
}
