// The exact order of two numbers as they are stored: of their values, and of their uncertainties.
#![tactic(auto)]

ghost use Rattle.std.specs.Prelude.{◌≡◌};
ghost use Rattle.amounts.specs.Exact.{Kept, raised as raised_of, value_order, uncertainty_order};
ghost use Rattle.amounts.specs.Sizes.{size_of, doubt_of};

use entries::Parts;
use orders::Size;
use std::cmp::Ordering;

// How many fraction digits a size has room for.
const MOST_PLACES: u8 = 18;

// An exponent as stored, counted from -2^31 on.
fn raised(exponent: u32) -> u64
    ensures { result ≡ raised_of exponent }
{
    (u64::from(exponent) + 2147483648) % 4294967296
}

// The size of a number: its fraction is filled up to 18 digits, so that the unit goes by the exponent alone.
fn size_of(parts: Parts) -> Size
    requires { Kept parts }
    ensures { result ≡ size_of parts }
{
    Size {
        high: u64::from(parts.integer),
        low: parts.fraction * contents::ten_to(MOST_PLACES - parts.places),
        unit: raised(parts.exponent),
    }
}

// The size of its uncertainty, in units of the last digit.
fn doubt_of(parts: Parts) -> Size
    requires { Kept parts }
    ensures { result ≡ doubt_of parts }
{
    Size {
        high: 0,
        low: u64::from(parts.uncertainty),
        unit: raised(parts.exponent) + u64::from(MOST_PLACES - parts.places),
    }
}

// The order of two numbers' values.
pub fn order_values(a: Parts, b: Parts) -> Ordering
    requires { Kept a × Kept b }
    ensures { result ≡ value_order a b }
{
    let x = size_of(a);
    let y = size_of(b);
    match (a.sign == 1, b.sign == 1) {
        (true, true) => orders::order_sizes(y, x),
        (true, false) => orders::order_apart(x, y),
        (false, true) => orders::order_apart(x, y).reverse(),
        (false, false) => orders::order_sizes(x, y),
    }
}

// The order of their uncertainties.
pub fn order_uncertainties(a: Parts, b: Parts) -> Ordering
    requires { Kept a × Kept b }
    ensures { result ≡ uncertainty_order a b }
{
    orders::order_sizes(doubt_of(a), doubt_of(b))
}
