// One way to find a value: by its first byte, its kind and length, or why none stands here; on top of it, what a number means.
#![tactic(auto)]

ghost use Rattle.std.specs.Prelude.{◌≡◌, true, false, ◌<◌, ◌^◌, length, get_or};
ghost use Rattle.rules.specs.declared.Reading.TheVariants.{Strict};
ghost use Rattle.values.specs.Answers.{value_at};
ghost use Rattle.values.specs.Finding.{starts_decimal, packed_at, Start, Parted};

use found::{Found, Why};
use kinds::Kind;
use numbers::Decimal;
use rules::Reading;

// What stands where a value may, and what a number means: a token of kinds 8 to 13 or 21, a number, a number over a digit limit, or no value.
#[derive(Clone, Copy)]
pub enum Value {
    Token { kind: u8, size: usize },
    Number { decimal: Decimal, size: usize },
    Over,
    Missing { why: Why },
}

// Whether a number, or a bare value, starts with a byte: a digit or a sign.
#[tactic(auto, unfolding(crate::specs::Finding::starts_decimal, text::specs::Bytes::is))]
fn starts_decimal(b: u8) -> bool
    ensures { result ≡ starts_decimal b }
{
    text::is_digit(b) || matches!(b, b'+' | b'-')
}

// What stands where a digit or a sign does. Most numbers are plain ones, and their last byte tells the kind.
fn pack_decimal(reading: Reading, s: &[u8], at: usize) -> usize
    requires { Start reading s.now at × (starts_decimal (get_or s.now at 0) ≡ true) }
    ensures { result ≡ packed_at reading s.now at }
{
    let end = decimals::decimal_end(reading, s, at);
    if end <= at {
        return unquoted::pack_word(reading, s, at);
    }
    let kind = if s[end - 1] == b')' {
        Kind::UNCERTAIN
    } else {
        Kind::NUMBER
    };
    found::packed(kind, end - at)
}

// What stands where another byte does: a mark, a letter that may start a reserved word, or another byte. Most often it is the `_`
// behind a list of values.
fn pack_marked(reading: Reading, s: &[u8], at: usize, b: u8) -> usize
    requires { Start reading s.now at × (b ≡ get_or s.now at 0) × (starts_decimal b ≡ false) }
    ensures { result ≡ packed_at reading s.now at }
{
    match b {
        b'_' => Why::NO_START,
        b'?' => unquoted::pack_unknown(reading, s, at),
        b'\'' => enclosed::pack_quote(reading, s, at, b'\'', Kind::SINGLE_QUOTED),
        b'"' => enclosed::pack_quote(reading, s, at, b'"', Kind::DOUBLE_QUOTED),
        b';' => enclosed::pack_semicolon(reading, s, at),
        b'.' => unquoted::pack_point(reading, s, at),
        _ if keywords::is_reserved(reading, s, at) => Why::RESERVED,
        _ if words::is_ordinary(b) => found::pack_bare(s, at),
        _ => Why::NO_START,
    }
}

// What stands where space parts it from what stands before, if the reading asks for that. The first byte tells most values, without
// making what they mean.
fn pack_parted(reading: Reading, s: &[u8], at: usize) -> usize
    requires { Parted reading s.now at }
    ensures { result ≡ packed_at reading s.now at }
{
    if s.len() <= at {
        return Why::AT_END;
    }
    let b = s[at];
    if keywords::is_free_letter(b) {
        return found::pack_bare(s, at);
    }
    if starts_decimal(b) {
        return pack_decimal(reading, s, at);
    }
    pack_marked(reading, s, at, b)
}

// What stands in the strict reading, which asks for it.
fn pack_strict(s: &[u8], at: usize) -> usize
    requires { length s.now < 2 ^ 32 }
    ensures { result ≡ packed_at Strict s.now at }
{
    if s.len() <= at {
        return Why::AT_END;
    }
    if !columns::is_parted(Reading::Strict, s, at) {
        return Why::JOINED;
    }
    pack_parted(Reading::Strict, s, at)
}

// What stands at an offset where a value may, behind space and comments, packed for `Found::of`. Lengths are stored in four
// bytes. The first reading has a call of its own, since even a test whether to look at the byte before would slow it down.
pub fn pack_value(reading: Reading, s: &[u8], at: usize) -> usize
    requires { length s.now < 2 ^ 32 }
    ensures { result ≡ packed_at reading s.now at }
{
    match reading {
        Reading::First => pack_parted(Reading::First, s, at),
        Reading::Strict => pack_strict(s, at),
    }
}

// What stands there, and what a number means.
pub fn parse_value(reading: Reading, s: &[u8], at: usize) -> Value
    requires { length s.now < 2 ^ 32 }
    ensures { result ≡ value_at reading s.now at }
{
    match Found::of(pack_value(reading, s, at)) {
        Found::Value { kind, size } => {
            if kind < Kind::NUMBER || kind == Kind::QUOTED {
                return Value::Token { kind, size };
            }
            let end = at + size;
            Value::Number {
                decimal: decimals::decimal_of(&s[at..end]),
                size,
            }
        }
        Found::Over => Value::Over,
        Found::Missing { why } => Value::Missing { why },
    }
}
