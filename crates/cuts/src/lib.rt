// Where the parts of a word lie that may be a number, and the digits in it.
#![tactic(auto)]

ghost use Rattle.std.specs.Prelude.{◌≡◌, ◌-◌, ◌≤◌, ◌<◌, true, get_or};
ghost use Rattle.cuts.specs.Digits.{value, piece, after, digits_end, digits_at, Run};
ghost use Rattle.cuts.specs.Cuts.{nowhere as nowhere_of, starts_exponent, exponent_at, bracket_at, cuts_of};

// Where an optional part lies: its sign starts at `sign`, its digits at `digits` and end at `end`, and what follows it
// starts at `next`. No Option: an absent part has offsets too, at which the next part starts.
#[derive(Clone, Copy)]
pub struct Extent {
    pub here: bool,
    pub sign: usize,
    pub digits: usize,
    pub end: usize,
    pub next: usize,
}

// Digits of a word: where they end, and the number that they write.
#[derive(Clone, Copy)]
pub struct Digits {
    pub end: usize,
    pub value: u64,
}

// Where a word's parts lie: the ends of sign, integer, point and fraction, then the exponent and the bracket.
#[derive(Clone, Copy)]
pub struct Cuts {
    pub sign: usize,
    pub integer: usize,
    pub point: usize,
    pub fraction: usize,
    pub exponent: Extent,
    pub bracket: Extent,
}

// The byte at an offset, 0 past the end.
pub fn byte_at(w: &[u8], at: usize) -> u8
    ensures { result ≡ get_or w.now at 0 }
{
    w.get(at).copied().unwrap_or(0)
}

// Behind the byte at an offset, if it is one of two.
#[tactic(auto, using(crate::proofs::Bounds::inside), unfolding(crate::specs::Digits::after, text::specs::Bytes::is))]
pub fn after_one(w: &[u8], at: usize, x: u8, y: u8) -> usize
    requires { (0 < x) × (0 < y) }
    ensures { result ≡ after x y w.now at }
{
    let b = byte_at(w, at);
    if b == x || b == y { at + 1 } else { at }
}

// Behind the digits at an offset.
pub fn digits_end(w: &[u8], from: usize) -> usize
    ensures { result ≡ digits_end w.now from }
{
    text::run_end(w, from, text::is_digit)
}

// A part that is absent at an offset.
fn nowhere(at: usize) -> Extent
    ensures { result ≡ nowhere_of at }
{
    Extent {
        here: false,
        sign: at,
        digits: at,
        end: at,
        next: at,
    }
}

// Whether an `e` or `E` that isn't the word's last byte stands at an offset.
#[tactic(auto, using(crate::proofs::Bounds::inside), unfolding(crate::specs::Cuts::starts_exponent, text::specs::Bytes::is))]
fn starts_exponent(w: &[u8], at: usize) -> bool
    ensures { result ≡ starts_exponent w.now at }
{
    matches!(byte_at(w, at), b'e' | b'E') && at + 1 < w.len()
}

// The exponent at an offset.
fn exponent_at(w: &[u8], at: usize) -> Extent
    ensures { result ≡ exponent_at w.now at }
{
    if !starts_exponent(w, at) {
        return nowhere(at);
    }
    let sign = at + 1;
    let digits = after_one(w, sign, b'+', b'-');
    let end = digits_end(w, digits);
    Extent {
        here: true,
        sign,
        digits,
        end,
        next: end,
    }
}

// The bracket at an offset.
fn bracket_at(w: &[u8], at: usize) -> Extent
    ensures { result ≡ bracket_at w.now at }
{
    if byte_at(w, at) != b'(' {
        return nowhere(at);
    }
    let digits = at + 1;
    let end = digits_end(w, digits);
    if byte_at(w, end) != b')' {
        return nowhere(at);
    }
    Extent {
        here: true,
        sign: digits,
        digits,
        end,
        next: end + 1,
    }
}

// Where a word's parts lie.
pub fn cut(w: &[u8]) -> Cuts
    ensures { result ≡ cuts_of w.now }
{
    let sign = after_one(w, 0, b'+', b'-');
    let integer = digits_end(w, sign);
    let point = after_one(w, integer, b'.', b'.');
    let fraction = digits_end(w, point);
    let exponent = exponent_at(w, fraction);
    let behind = exponent.next;
    let bracket = bracket_at(w, behind);
    Cuts {
        sign,
        integer,
        point,
        fraction,
        exponent,
        bracket,
    }
}

// The number that the digits from one offset to another write.
pub fn digits_value(w: &[u8], from: usize, to: usize) -> u64
    requires { Run w.now from to × (to - from ≤ 18) }
    ensures { result ≡ value (piece w.now from to) }
{
    let mut v = 0;
    for b in &w[from..to] {
        v = v * 10 + u64::from(*b - b'0');
    }
    v
}

// The same, of at most nine digits.
pub fn small_value(w: &[u8], from: usize, to: usize) -> u32
    requires { Run w.now from to × (to - from ≤ 9) }
    ensures { result ≡ value (piece w.now from to) }
{
    digits_value(w, from, to) as u32
}

// The digits at an offset, in one pass: `digits_end` and then `digits_value` would read each twice.
pub fn digits_at(w: &[u8], from: usize) -> Digits
    requires { digits_end w.now from - from ≤ 18 }
    ensures { result ≡ digits_at w.now from }
{
    let mut value = 0;
    let mut end = from;
    while end < w.len() && text::is_digit(w[end]) {
        value = value * 10 + u64::from(w[end] - b'0');
        end += 1;
    }
    Digits { end, value }
}
