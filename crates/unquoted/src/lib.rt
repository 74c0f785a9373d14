// Values that stand between no marks: a number, bare text, `.` and `?`.
#![tactic(auto)]

ghost use Rattle.std.specs.Prelude.{◌≡◌, ◌≤◌, ◌<◌, ◌^◌, length};
ghost use Rattle.found.specs.declared.Found.TheVariants.{Value as FoundValue};
ghost use Rattle.found.specs.Packing.{packed_of};
ghost use Rattle.unquoted.specs.Pieces.{kind_of_number, number_at, word_at, first_point, alone_at, point_at, unknown_at};

use found::Found;
use kinds::Kind;
use numbers::{Decimal, Number};
use rules::Reading;

// Kind 14, or 15 with uncertainty.
fn number_kind(decimal: Decimal) -> u8
    ensures { result ≡ kind_of_number decimal }
{
    if decimal.uncertain {
        Kind::UNCERTAIN
    } else {
        Kind::NUMBER
    }
}

// The bytes between two offsets as a number, or else a value of a kind and length.
fn number_or(reading: Reading, s: &[u8], at: usize, end: usize, kind: u8, size: usize) -> usize
    requires { (at ≤ end) × (end ≤ length s.now) × (length s.now < 2 ^ 32) × (size < 2 ^ 32) }
    ensures { result ≡ packed_of (number_at reading (FoundValue kind size) s.now at end) }
{
    let number = numbers::parse_numeric(reading, &s[at..end]);
    match number {
        Number::Is(decimal) => found::packed(number_kind(decimal), end - at),
        Number::Over => Found::OVER,
        Number::Not => found::packed(kind, size),
    }
}

// A word: a number or bare text.
pub fn pack_word(reading: Reading, s: &[u8], at: usize) -> usize
    requires { (length s.now < 2 ^ 32) × (at < length s.now) }
    ensures { result ≡ packed_of (word_at reading s.now at) }
{
    let end = words::parse_identifier(s, at);
    number_or(reading, s, at, end, Kind::BARE, end - at)
}

// `.` in the first reading: a number or inapplicable. Its word is scanned only where a digit follows, so that a run of dots takes one step each.
fn pack_first_point(s: &[u8], at: usize) -> usize
    requires { (length s.now < 2 ^ 32) × (at < length s.now) }
    ensures { result ≡ packed_of (first_point s.now at) }
{
    let next = at + 1;
    if s.len() <= next || !text::is_digit(s[next]) {
        return found::packed(Kind::INAPPLICABLE, 1);
    }
    let end = words::parse_identifier(s, at);
    number_or(Reading::First, s, at, end, Kind::INAPPLICABLE, 1)
}

// `.` or `?` in the strict reading: of a kind where it is the whole word.
fn pack_alone(s: &[u8], at: usize, kind: u8) -> usize
    requires { (length s.now < 2 ^ 32) × (at < length s.now) }
    ensures { result ≡ packed_of (alone_at kind s.now at) }
{
    let end = words::parse_identifier(s, at);
    if end - at == 1 {
        return found::packed(kind, 1);
    }
    number_or(Reading::Strict, s, at, end, Kind::BARE, end - at)
}

// `.`, by the reading.
pub fn pack_point(reading: Reading, s: &[u8], at: usize) -> usize
    requires { (length s.now < 2 ^ 32) × (at < length s.now) }
    ensures { result ≡ packed_of (point_at reading s.now at) }
{
    match reading {
        Reading::First => pack_first_point(s, at),
        Reading::Strict => pack_alone(s, at, Kind::INAPPLICABLE),
    }
}

// `?`, by the reading.
pub fn pack_unknown(reading: Reading, s: &[u8], at: usize) -> usize
    requires { (length s.now < 2 ^ 32) × (at < length s.now) }
    ensures { result ≡ packed_of (unknown_at reading s.now at) }
{
    match reading {
        Reading::First => found::packed(Kind::UNKNOWN, 1),
        Reading::Strict => pack_alone(s, at, Kind::UNKNOWN),
    }
}
