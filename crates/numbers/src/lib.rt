// Numbers: whether a word is one, and what it means.
#![tactic(auto)]

ghost use Rattle.std.specs.Prelude.{◌≡◌, ◌-◌, ◌<◌, true, not, ◌&&◌, ◌||◌, eqb, ltb};
ghost use Rattle.numbers.specs.Parts.{parts, is_number, written, counts_as, within, minus};
ghost use Rattle.numbers.specs.Meaning.{meaning, number_of};
ghost use Rattle.cuts.specs.Digits.{piece};
ghost use Rattle.numbers.specs.Pieces.{starts_number, parts_of};
ghost use Rattle.cuts.specs.Cuts.{Sound};

use cuts::{Cuts, Extent};
use rules::Reading;

// What a number means: its sign, integer, fraction and how many digits that has, sign and size of the exponent, and
// uncertainty. Flags beside numbers, and no Option: so the record of the store keeps them.
#[derive(Clone, Copy)]
pub struct Decimal {
    pub minus: bool,
    pub integer: u32,
    pub fraction: u64,
    pub places: usize,
    pub lowers: bool,
    pub exponent: u32,
    pub uncertain: bool,
    pub uncertainty: u32,
}

// What a word says: it is no number, it is one, or it is one that breaks a digit limit. Not an Option of a Result, which
// would say no more: to be no number is no failure, and what breaks a limit is a number.
#[derive(Clone, Copy)]
pub enum Number {
    Not,
    Is(Decimal),
    Over,
}

// Whether a number may start with a byte.
#[tactic(auto, unfolding(crate::specs::Pieces::starts_number, text::specs::Bytes::is))]
fn starts_number(b: u8) -> bool
    ensures { result ≡ starts_number b }
{
    text::is_digit(b) || matches!(b, b'+' | b'-' | b'.')
}

// Whether the parts make a number: nothing is left over, and a digit stands before or after the point.
#[tactic(auto, using(crate::proofs::Limits::cut_tests))]
fn is_number(w: &[u8], k: Cuts) -> bool
    requires { Sound w.now k }
    ensures { result ≡ is_number (parts_of w.now k) }
{
    w.len() <= k.bracket.next && (k.sign < k.integer || k.point < k.fraction)
}

// Whether a part, if it is there, has digits.
fn is_written(x: Extent) -> bool
    ensures { result ≡ (not x.here || ltb x.digits x.end) }
{
    !x.here || x.digits < x.end
}

// Whether exponent and bracket do.
#[tactic(auto, using(crate::proofs::Limits::cut_tests))]
fn is_standard(w: &[u8], k: Cuts) -> bool
    requires { Sound w.now k }
    ensures { result ≡ (written (parts_of w.now k).exp && written (parts_of w.now k).unc) }
{
    is_written(k.exponent) && is_written(k.bracket)
}

// Whether the parts make a number of the reading.
#[tactic(auto, unfolding(crate::specs::Parts::is_numeric))]
fn counts_as(reading: Reading, w: &[u8], k: Cuts) -> bool
    requires { Sound w.now k }
    ensures { result ≡ counts_as reading (parts_of w.now k) }
{
    match reading {
        Reading::First => is_number(w, k),
        Reading::Strict => is_number(w, k) && is_standard(w, k),
    }
}

// Whether the digits of each part keep their limit, counted with leading zeros.
#[tactic(auto, using(crate::proofs::Limits::cut_tests))]
fn in_limits(w: &[u8], k: Cuts) -> bool
    requires { Sound w.now k }
    ensures { result ≡ within (parts_of w.now k) }
{
    k.integer - k.sign <= 9
        && k.fraction - k.point <= 18
        && k.exponent.end - k.exponent.digits <= 9
        && k.bracket.end - k.bracket.digits <= 9
}

// Whether a sign from one offset to another is a minus.
#[tactic(auto, using(crate::proofs::Pieces::sign_test))]
pub fn is_minus(w: &[u8], from: usize, to: usize) -> bool
    ensures { result ≡ minus (piece w.now from to) }
{
    from < to && cuts::byte_at(w, from) == b'-'
}

// Whether an exponent of a size has a minus: 0 has none.
fn is_lowering(w: &[u8], from: usize, to: usize, size: u32) -> bool
    ensures { result ≡ minus (piece w.now from to) && not (eqb size 0) }
{
    size != 0 && is_minus(w, from, to)
}

// What the parts mean.
fn read(w: &[u8], k: Cuts) -> Decimal
    requires { Sound w.now k × (within (parts_of w.now k) ≡ true) }
    ensures { result ≡ meaning (parts_of w.now k) }
{
    let minus = is_minus(w, 0, k.sign);
    let integer = cuts::small_value(w, k.sign, k.integer);
    let fraction = cuts::digits_value(w, k.point, k.fraction);
    let size = cuts::small_value(w, k.exponent.digits, k.exponent.end);
    let lowers = is_lowering(w, k.exponent.sign, k.exponent.digits, size);
    let uncertainty = cuts::small_value(w, k.bracket.digits, k.bracket.end);
    Decimal {
        minus,
        integer,
        fraction,
        places: k.fraction - k.point,
        lowers,
        exponent: size,
        uncertain: k.bracket.here,
        uncertainty,
    }
}

// What a word means whose parts keep the limits, by its cuts.
pub fn decimal_by_cuts(w: &[u8]) -> Decimal
    requires { within (parts w.now) ≡ true }
    ensures { result ≡ meaning (parts w.now) }
{
    let k = cuts::cut(w);
    read(w, k)
}

// What a word says as a number. Most words are no numbers and show it by their first byte.
pub fn parse_numeric(reading: Reading, w: &[u8]) -> Number
    ensures { result ≡ number_of reading w.now }
{
    if !starts_number(cuts::byte_at(w, 0)) {
        return Number::Not;
    }
    let k = cuts::cut(w);
    if !counts_as(reading, w, k) {
        return Number::Not;
    }
    if !in_limits(w, k) {
        return Number::Over;
    }
    Number::Is(read(w, k))
}
