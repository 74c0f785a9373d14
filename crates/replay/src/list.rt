// The fixed list of the source's answers; the README of compare-with-source has its bytes.
ghost use Rattle.std.specs.Prelude.{◌+◌, ◌≤◌, length, IfSome};

// The bytes that an entry starts with.
const HEAD: usize = 16;

// An entry: a text, the source's answer to it, what the source leaves of it in records of five bytes and an area, and the numbers among the records, of eight bytes each.
#[derive(Clone, Copy)]
pub struct Entry<'a> {
    pub text: &'a [u8],
    pub number: usize,
    pub line: usize,
    pub column: usize,
    pub detail: usize,
    pub records: &'a [u8],
    pub area: &'a [u8],
    pub numbers: &'a [u8],
}

// One of the eight numbers that an entry starts with, of two bytes each.
fn field(head: &[u8; HEAD], number: usize) -> usize
    requires { number ≤ 7 }
    ensures { result ≤ 65535 }
{
    usize::from(u16::from_le_bytes([head[2 * number], head[2 * number + 1]]))
}

impl<'a> Entry<'a> {
    // The entry that bytes start with, and what stands behind it; none where it is cut off.
    pub fn split(s: &'a [u8]) -> Option<(Entry<'a>, &'a [u8])>
        ensures { IfSome result (λ r. length r.1.now + 16 ≤ length s.now) }
    {
        let (head, rest) = s.split_first_chunk::<HEAD>()?;
        let (text, rest) = rest.split_at_checked(field(head, 0))?;
        let (records, rest) = rest.split_at_checked(field(head, 5) * 5)?;
        let (area, rest) = rest.split_at_checked(field(head, 6))?;
        let (numbers, rest) = rest.split_at_checked(field(head, 7) * 8)?;
        let entry = Entry {
            text,
            number: field(head, 1),
            line: field(head, 2),
            column: field(head, 3),
            detail: field(head, 4),
            records,
            area,
            numbers,
        };
        Some((entry, rest))
    }
}

// The entries of a list, and how many it says that they are; none where it isn't as long as it says.
pub fn entries(list: &[u8]) -> Option<(u32, &[u8])> {
    let (told, rest) = list.strip_prefix(b"cifreads")?.split_first_chunk::<4>()?;
    let (size, entries) = rest.split_first_chunk::<4>()?;
    if u32::from_le_bytes(*size) as usize != entries.len() {
        return None;
    }
    Some((u32::from_le_bytes(*told), entries))
}
