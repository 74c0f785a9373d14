// The order of sizes: of numbers without sign, each a count of units that are powers of ten, however far those lie apart.
#![tactic(auto)]

ghost use Rattle.std.specs.Prelude.{◌≡◌, ◌*◌, ◌^◌, ◌≤◌};
ghost use Rattle.orders.specs.Order.{order_of};
ghost use Rattle.orders.specs.Sizes.{Fits, pair, size_order, is_none, apart};

use std::cmp::Ordering;

// A size: `high` times 10^18 and `low`, so many units of ten to the power of `unit`.
#[derive(Clone, Copy)]
pub struct Size {
    pub high: u64,
    pub low: u64,
    pub unit: u64,
}

// 10^17: a tenth of what each half stays below.
const TENTH: u64 = 100000000000000000;

// The order of two sizes of the same unit.
fn order_pairs(a: Size, b: Size) -> Ordering
    requires { Fits a × Fits b }
    ensures { result ≡ order_of (pair a) (pair b) }
{
    a.high.cmp(&b.high).then(a.low.cmp(&b.low))
}

// The order of a size times a power of ten and another one of the same unit. A pair that is not 0 outgrows the other one
// after 36 steps at most.
fn order_raised(a: Size, power: u64, b: Size) -> Ordering
    requires { Fits a × Fits b }
    ensures { result ≡ order_of (pair a * 10 ^ power) (pair b) }
{
    if a.high == 0 && a.low == 0 {
        return order_pairs(a, b);
    }
    let mut size = a;
    for _ in 0..power {
        if TENTH <= size.high {
            return Ordering::Greater;
        }
        size.high = size.high * 10 + size.low / TENTH;
        size.low = size.low % TENTH * 10;
    }
    order_pairs(size, b)
}

// The order of two sizes: the one with the larger unit is counted in the smaller.
pub fn order_sizes(a: Size, b: Size) -> Ordering
    requires { Fits a × Fits b }
    ensures { result ≡ size_order a b }
{
    if a.unit < b.unit {
        order_raised(b, b.unit - a.unit, a).reverse()
    } else {
        order_raised(a, a.unit - b.unit, b)
    }
}

// Whether a size is 0.
fn is_none(a: Size) -> bool
    ensures { result ≡ is_none a }
{
    a.high == 0 && a.low == 0
}

// The order of a size below 0 and one above.
pub fn order_apart(a: Size, b: Size) -> Ordering
    ensures { result ≡ apart a b }
{
    if is_none(a) && is_none(b) {
        Ordering::Equal
    } else {
        Ordering::Less
    }
}
