// Parts of slices, for callers who need not know that they lie inside.
ghost use Rattle.std.specs.Prelude.{◌≡◌, ◌≤◌, ◌<◌, length};

use places::Report;

// A part; an empty one where it does not lie inside.
pub fn part(s: &[u8], from: usize, size: usize) -> &[u8]
    ensures size { length result.now ≤ size }
    ensures inside { length result.now ≤ length s.now }
{
    s.get(from..)
        .and_then(|rest| rest.get(..size))
        .unwrap_or(&[])
}

// As much of a buffer's start as it has.
pub fn room(s: &mut [u8], size: usize) -> &mut [u8] {
    let n = size.min(s.len());
    &mut s[..n]
}

// Whether all bytes from an offset on are this one.
pub fn is_all(s: &[u8], from: usize, b: u8) -> bool {
    s.iter().skip(from).all(|x| *x == b)
}

// How much of a buffer counts behind a service's answer: so much of it, or nothing, if it is refused.
pub fn counted(answer: Report, size: usize) -> usize
    ensures done { answer.number ≡ 0 → result ≡ size }
    ensures refused { 0 < answer.number → result ≡ 0 }
{
    if answer.number == 0 { size } else { 0 }
}
