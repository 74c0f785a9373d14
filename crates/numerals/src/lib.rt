// Numbers as bytes: a decimal written into a lent text, and how long it is.
#![tactic(auto)]

ghost use Rattle.std.specs.Prelude.{◌≡◌, [], ◌∷◌, ◌+◌, ◌-◌, ◌≤◌, ◌<◌, ◌^◌, length};
ghost use Rattle.numbers.specs.Spelling.{padded, plain, sign_bytes, frac_bytes, exp_bytes, unc_bytes, render_number};
ghost use Rattle.numerals.specs.Written.{Wrote, Short};

use numbers::Decimal;

// One byte. Every writing function answers the offset behind what it wrote.
pub fn put_byte(out: &mut [u8], at: usize, b: u8) -> usize
    requires { at + 1 ≤ length out.old }
    ensures { Wrote at (b ∷ []) out.old out.new result }
{
    out[at] = b;
    at + 1
}

// A number's last digits, leading zeros too, the last one first.
fn put_digits(out: &mut [u8], at: usize, count: usize, n: u64) -> usize
    requires { at + count ≤ length out.old }
    ensures { Wrote at (padded count n) out.old out.new result }
{
    let mut rest = n;
    for left in (0..count).rev() {
        out[at + left] = b'0' + (rest % 10) as u8;
        rest /= 10;
    }
    at + count
}

// How many digits a number has without leading zeros: at least one.
fn digit_count(n: u32) -> usize
    requires { n < 10 ^ 9 }
    ensures { result ≡ length (plain n) }
{
    match n.checked_ilog10() {
        Some(power) => power as usize + 1,
        None => 1,
    }
}

// A number without leading zeros.
fn put_plain(out: &mut [u8], at: usize, n: u32) -> usize
    requires { (n < 10 ^ 9) × (at + length (plain n) ≤ length out.old) }
    ensures { Wrote at (plain n) out.old out.new result }
{
    put_digits(out, at, digit_count(n), n as u64)
}

// `-` if minus.
fn put_sign(out: &mut [u8], at: usize, minus: bool) -> usize
    requires { at + length (sign_bytes minus) ≤ length out.old }
    ensures { Wrote at (sign_bytes minus) out.old out.new result }
{
    if minus {
        return put_byte(out, at, b'-');
    }
    at
}

// `.` and all fraction digits, if any.
fn put_fraction(out: &mut [u8], at: usize, places: usize, fraction: u64) -> usize
    requires { at + length (frac_bytes places fraction []) ≤ length out.old }
    ensures { Wrote at (frac_bytes places fraction []) out.old out.new result }
{
    if places == 0 {
        return at;
    }
    let digits = put_byte(out, at, b'.');
    put_digits(out, digits, places, fraction)
}

// `e` and the exponent, if it is not 0.
fn put_exponent(out: &mut [u8], at: usize, lowers: bool, exponent: u32) -> usize
    requires { (exponent < 10 ^ 9) × (at + length (exp_bytes lowers exponent []) ≤ length out.old) }
    ensures { Wrote at (exp_bytes lowers exponent []) out.old out.new result }
{
    if exponent == 0 {
        return at;
    }
    let sign = put_byte(out, at, b'e');
    let digits = put_sign(out, sign, lowers);
    put_plain(out, digits, exponent)
}

// The uncertainty in brackets, if there is one.
fn put_uncertainty(out: &mut [u8], at: usize, uncertain: bool, uncertainty: u32) -> usize
    requires { (uncertainty < 10 ^ 9) × (at + length (unc_bytes uncertain uncertainty) ≤ length out.old) }
    ensures { Wrote at (unc_bytes uncertain uncertainty) out.old out.new result }
{
    if !uncertain {
        return at;
    }
    let digits = put_byte(out, at, b'(');
    let end = put_plain(out, digits, uncertainty);
    put_byte(out, end, b')')
}

// A number.
pub fn put_number(out: &mut [u8], at: usize, d: Decimal) -> usize
    requires { Short d × (at + length (render_number d) ≤ length out.old) }
    ensures { Wrote at (render_number d) out.old out.new result }
{
    let integer = put_sign(out, at, d.minus);
    let fraction = put_plain(out, integer, d.integer);
    let exponent = put_fraction(out, fraction, d.places, d.fraction);
    let uncertainty = put_exponent(out, exponent, d.lowers, d.exponent);
    put_uncertainty(out, uncertainty, d.uncertain, d.uncertainty)
}

// The lengths of a number's pieces. No sink that counts or writes: the writing needs room for what the counting tells,
// so each piece's length is a clause of its own that the writer's `requires` cites.
fn sign_length(minus: bool) -> usize
    ensures { result ≡ length (sign_bytes minus) }
{
    if minus {
        return 1;
    }
    0
}

fn fraction_length(places: usize, fraction: u64) -> usize
    requires { places ≤ 18 }
    ensures { result ≡ length (frac_bytes places fraction []) }
{
    if 0 < places {
        return 1 + places;
    }
    0
}

fn exponent_length(lowers: bool, exponent: u32) -> usize
    requires { exponent < 10 ^ 9 }
    ensures { result ≡ length (exp_bytes lowers exponent []) }
{
    if 0 < exponent {
        return 1 + sign_length(lowers) + digit_count(exponent);
    }
    0
}

fn uncertainty_length(uncertain: bool, uncertainty: u32) -> usize
    requires { uncertainty < 10 ^ 9 }
    ensures { result ≡ length (unc_bytes uncertain uncertainty) }
{
    if uncertain {
        return 2 + digit_count(uncertainty);
    }
    0
}

pub fn number_length(d: Decimal) -> usize
    requires { Short d }
    ensures { result ≡ length (render_number d) }
{
    let whole = sign_length(d.minus) + digit_count(d.integer);
    let fraction = fraction_length(d.places, d.fraction);
    let exponent = exponent_length(d.lowers, d.exponent);
    let uncertainty = uncertainty_length(d.uncertain, d.uncertainty);
    whole + fraction + exponent + uncertainty
}
