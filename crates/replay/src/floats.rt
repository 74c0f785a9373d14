// A number as the source has it: an `f64`, made of decimal parts by the source's own steps.
use entries::Parts;

// The pattern that stands for every NaN in the list.
const NAN: u64 = 9221120237041090560;

// 10 to a power, as far as it fits.
fn ten_to(power: u8) -> u64 {
    let mut product: u64 = 1;
    for _ in 0..power {
        if product <= 1000000000000000000 {
            product *= 10;
        }
    }
    product
}

// A digit by its unit.
fn digit(fraction: u64, unit: u64) -> u64 {
    fraction.checked_div(unit).unwrap_or(0) % 10
}

// Each digit behind the point is divided by its own power of ten, and they are added from the left.
fn behind_point(fraction: u64, places: u8) -> f64 {
    let mut unit = ten_to(places);
    let mut power = 1.0;
    let mut sum = 0.0;
    for _ in 0..places {
        unit /= 10;
        power *= 10.0;
        sum += std::num::nearest_u64_to_f64(digit(fraction, unit)) / power;
    }
    sum
}

// 10 to a power by squares, as the source's `powi` has it.
fn float_ten_to(power: u32) -> f64 {
    let mut square = 10.0;
    let mut product = 1.0;
    let mut left = power; // halved by each step, so no range counts it
    while 0 < left {
        if left % 2 == 1 {
            product *= square;
        }
        square *= square;
        left /= 2;
    }
    product
}

// Times 10 to an exponent that is kept in two's complement.
fn scaled(number: f64, exponent: u32) -> f64 {
    if exponent < 2147483648 {
        number * float_ten_to(exponent)
    } else {
        number * (1.0 / float_ten_to(exponent.wrapping_neg()))
    }
}

fn signed(number: f64, sign: u8) -> f64 {
    if sign == 1 { -number } else { number }
}

fn rebuilt(parts: Parts) -> f64 {
    let fraction = behind_point(parts.fraction, parts.places);
    let whole = std::num::nearest_u64_to_f64(u64::from(parts.integer)) + fraction;
    scaled(signed(whole, parts.sign), parts.exponent)
}

// The bits of the number that the source makes of decimal parts.
pub fn bits(parts: Parts) -> u64 {
    let number = rebuilt(parts);
    if number == number {
        return f64::to_bits(number);
    }
    NAN
}
