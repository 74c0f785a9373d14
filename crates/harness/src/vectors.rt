// Lines of vectors: the numbers, texts and bytes that they stand for.
ghost use Rattle.std.specs.Prelude.{◌≡◌, [], ◌∷◌, ◌≤◌, ◌<◌, ℕ, drop, take, length, IfSome};

use crate::parts::part;
use rules::Reading;

// The letter that a vector starts with, and its text behind a space; an empty line and one that starts with `#` are none.
pub fn vector(line: &[u8]) -> Option<(u8, &[u8])>
    ensures letter { IfSome result (λ v. take 1 line.now ≡ v.0 ∷ []) }
    ensures text { IfSome result (λ v. v.1.now ≡ drop 2 line.now) }
{
    match line {
        [] | [b'#', ..] => None,
        [letter] => Some((*letter, &[])),
        [letter, _, text @ ..] => Some((*letter, text)),
    }
}

// The number with one more digit, as far as nine of them go.
fn with_digit(number: usize, digit: u8) -> usize {
    if number < 100000000 {
        number * 10 + digit as usize
    } else {
        number
    }
}

// The decimal number that a text starts with, 0 if none does, and what stands behind it and one space.
pub fn number(s: &[u8]) -> (usize, &[u8])
    ensures { (n : ℕ) × (n ≤ length s.now) × (result.1.now ≡ drop n s.now) }
{
    let mut number = 0;
    let mut rest = s;
    while let [b @ b'0'..=b'9', behind @ ..] = rest {
        number = with_digit(number, *b - b'0');
        rest = behind;
    }
    (number, rest.strip_prefix(b" ").unwrap_or(rest))
}

// The reading that a text names by its number, or else the one before.
pub fn reading(s: &[u8], before: Reading) -> Reading {
    let (number, _) = number(s);
    Reading::of(number as u64).unwrap_or(before)
}

// A hexadecimal digit's value.
fn digit(b: u8) -> u8
    ensures { result < 16 }
{
    match b {
        b'0'..=b'9' => b - b'0',
        b'A'..=b'F' => b - b'A' + 10,
        b'a'..=b'f' => b - b'a' + 10,
        _ => 0,
    }
}

// The byte that two hexadecimal digits give.
fn pair(high: u8, low: u8) -> u8 {
    digit(high) * 16 + digit(low)
}

// Puts a byte at an offset, if there is room; answers the offset behind it.
fn put(out: &mut [u8], at: usize, b: u8) -> usize {
    if at < out.len() {
        out[at] = b;
        return at + 1;
    }
    at
}

// Puts the bytes that a text stands for from an offset on: `\` and two hexadecimal digits are one, and any other byte is itself. Answers where they end.
pub fn unfold(s: &[u8], out: &mut [u8], from: usize) -> usize {
    let mut end = from;
    let mut rest = s;
    while let [first, behind @ ..] = rest {
        let (b, after) = match behind {
            [high, low, after @ ..] if *first == b'\\' => (pair(*high, *low), after),
            _ => (*first, behind),
        };
        end = put(out, end, b);
        rest = after;
    }
    end
}

// The bytes that a text stands for, as many as there is room for.
pub fn text<'a>(s: &[u8], out: &'a mut [u8]) -> &'a [u8]
    ensures { length result.now ≤ length out.old }
{
    let end = unfold(s, out, 0);
    part(out, 0, end)
}

// Puts the bytes that are written by pairs of hexadecimal digits, with spaces between them, from an offset on; answers where they end.
pub fn unhex(s: &[u8], out: &mut [u8], from: usize) -> usize {
    let mut end = from;
    let mut rest = s;
    while let [high, behind @ ..] = rest {
        rest = behind;
        if let [low, after @ ..] = behind
            && *high != b' '
        {
            end = put(out, end, pair(*high, *low));
            rest = after;
        }
    }
    end
}
