// Numbers without an exponent, read in one pass: most numbers are such.
#![tactic(auto)]

ghost use Rattle.std.specs.Prelude.{◌≡◌, ◌-◌, ◌<◌, true};
ghost use Rattle.numbers.specs.Parts.{parts, within, minus};
ghost use Rattle.cuts.specs.Digits.{value};
ghost use Rattle.numbers.specs.Meaning.{meaning};
ghost use Rattle.decimals.specs.Plain.{word_stops, least_digits, bracket_end, decimal_end};

use numbers::Decimal;
use rules::Reading;

// What a word means whose parts keep the limits. Most end behind their fraction or a bracket there, and one pass reads
// those.
pub fn decimal_of(w: &[u8]) -> Decimal
    requires { within (parts w.now) ≡ true }
    ensures { result ≡ meaning (parts w.now) }
{
    let sign = cuts::after_one(w, 0, b'+', b'-');
    let minus = numbers::is_minus(w, 0, sign);
    let whole = cuts::digits_at(w, sign);
    let integer = whole.value as u32;
    let point = cuts::after_one(w, whole.end, b'.', b'.');
    let part = cuts::digits_at(w, point);
    let behind = part.end;
    let places = behind - point;
    let plain = Decimal {
        minus,
        integer,
        fraction: part.value,
        places,
        lowers: false,
        exponent: 0,
        uncertain: false,
        uncertainty: 0,
    };
    if w.len() <= behind {
        return plain;
    }
    // A bracket that isn't closed may have digits without limit.
    if w[behind] != b'(' || 11 < w.len() - behind {
        return numbers::decimal_by_cuts(w);
    }
    let inner = cuts::digits_at(w, behind + 1);
    if cuts::byte_at(w, inner.end) != b')' {
        return numbers::decimal_by_cuts(w);
    }
    Decimal {
        uncertain: true,
        uncertainty: inner.value as u32,
        ..plain
    }
}

// Whether a word ends at an offset of a text.
#[tactic(auto, unfolding(crate::specs::Plain::word_stops))]
fn word_stops(s: &[u8], at: usize) -> bool
    ensures { result ≡ word_stops s.now at }
{
    s.len() <= at || text::ends_word(s[at])
}

// The digits that a bracket has at least: `1()` is a number of the first reading alone.
fn least_digits(reading: Reading) -> usize
    ensures { result ≡ least_digits reading }
{
    match reading {
        Reading::First => 0,
        Reading::Strict => 1,
    }
}

// Behind the bracket at an offset, if it is closed, has digits enough and keeps its limit; else the offset.
#[tactic(auto, using(cuts::proofs::Bounds::inside, cuts::proofs::DigitRuns::digits_from), unfolding(crate::specs::Plain::bracket_end, text::specs::Bytes::is))]
fn bracket_end(reading: Reading, s: &[u8], at: usize) -> usize
    ensures { result ≡ bracket_end reading s.now at }
{
    if cuts::byte_at(s, at) != b'(' {
        return at;
    }
    let digits = at + 1;
    let end = cuts::digits_end(s, digits);
    let count = end - digits;
    let holds = least_digits(reading) <= count && count <= 9;
    if holds && cuts::byte_at(s, end) == b')' {
        end + 1
    } else {
        at
    }
}

// Where the number that starts at an offset of a text ends, if it has no exponent, keeps the limits and is the whole
// word; else the offset. It makes no decimal: most values are such numbers, and most readers want their kind and length
// alone.
#[tactic(auto, using(cuts::proofs::DigitRuns::digits_from), unfolding(crate::specs::Plain::decimal_end))]
pub fn decimal_end(reading: Reading, s: &[u8], from: usize) -> usize
    ensures { result ≡ decimal_end reading s.now from }
{
    let sign = cuts::after_one(s, from, b'+', b'-');
    let integer = cuts::digits_end(s, sign);
    if 9 < integer - sign {
        return from;
    }
    let point = cuts::after_one(s, integer, b'.', b'.');
    let fraction = cuts::digits_end(s, point);
    if 18 < fraction - point || integer - sign + (fraction - point) < 1 {
        return from;
    }
    let end = bracket_end(reading, s, fraction);
    if word_stops(s, end) { end } else { from }
}
