// Lines and places: where a line ends, and the line and column of an offset.
#![tactic(auto)]

ghost use Rattle.std.specs.Prelude.{◌≡◌, ◌+◌, ◌-◌, ◌≤◌, ◌<◌, ◌^◌, length};
ghost use Rattle.text.specs.Bytes.{is};
ghost use Rattle.text.specs.Runs.{runs};
ghost use Rattle.places.specs.Lines.{in_line, line_end, feed as feed_of, feeds_or, last_start};
ghost use Rattle.places.specs.Reports.{no_room, refused_bare, refused_at, of_records};
ghost use Rattle.places.specs.Places.{step as step_of, along as along_of, place_at, IsPlace};

// Where a byte stands in a text.
#[derive(Clone, Copy)]
pub struct Place {
    pub offset: usize,
    pub line: usize,
    pub column: usize,
}

// An answer in document 01's numbers: the refusal number, its place (or two record numbers), its detail, and the two
// lengths.
#[derive(Clone, Copy)]
pub struct Report {
    pub number: usize,
    pub offset: usize,
    pub line: usize,
    pub column: usize,
    pub detail: usize,
    pub first: usize,
    pub second: usize,
}

impl Report {
    // A number and two lengths: those written, or those needed.
    pub fn lengths(number: usize, first: usize, second: usize) -> Report
        ensures { result ≡ no_room number first second }
    {
        Report {
            number,
            offset: 0,
            line: 0,
            column: 0,
            detail: 0,
            first,
            second,
        }
    }

    // A number alone.
    pub fn bare(number: usize) -> Report
        ensures { result ≡ refused_bare number }
    {
        Report::lengths(number, 0, 0)
    }

    // A refusal at a place.
    pub fn at(number: usize, place: Place, detail: usize) -> Report
        ensures { result ≡ refused_at number place detail }
    {
        Report {
            number,
            offset: place.offset,
            line: place.line,
            column: place.column,
            detail,
            first: 0,
            second: 0,
        }
    }

    // A number and those of two records.
    pub fn records(number: usize, first: usize, again: usize) -> Report
        ensures { result ≡ of_records number first again }
    {
        Report {
            number,
            offset: first,
            line: again,
            column: 0,
            detail: 0,
            first: 0,
            second: 0,
        }
    }
}

// Where the line that goes on at an offset ends: at its LF or CR, or at the text's end.
pub fn line_end(s: &[u8], from: usize) -> usize
    ensures { result ≡ line_end s.now from }
{
    text::long_run_end::<16, _, _>(
        s,
        from,
        |b| text::is_clear(b, text::ABOVE_LINE_ENDS, 0),
        |b| !text::is_eol(b),
    )
}

// Line and column so far, and half: the last byte, where it is an LF or CR that began a line end, else 0.
#[derive(Clone, Copy)]
pub struct Scan {
    pub line: usize,
    pub column: usize,
    pub half: u8,
}

// Over one byte.
#[tactic(auto, unfolding(crate::specs::Places::step, text::specs::Bytes::is_eol))]
pub fn step(c: Scan, b: u8) -> Scan
    requires { (c.line < 2 ^ 63) × (c.column < 2 ^ 63) }
    ensures { result ≡ step_of c b }
{
    match (b, c.half) {
        (b'\n', b'\r') | (b'\r', b'\n') => Scan {
            line: c.line,
            column: 1,
            half: 0,
        },
        (b'\n' | b'\r', _) => Scan {
            line: c.line + 1,
            column: 1,
            half: b,
        },
        _ => Scan {
            line: c.line,
            column: c.column + 1,
            half: 0,
        },
    }
}

// Over bytes that end no line.
#[tactic(auto, unfolding(crate::specs::Places::along))]
fn along(c: Scan, count: usize) -> Scan
    requires { c.column + count < 2 ^ 64 }
    ensures { result ≡ along_of c count }
{
    Scan {
        line: c.line,
        column: c.column + count,
        half: 0,
    }
}

// The place of a later offset, from the place of an earlier one: line by line, as only a line that was looked through tells
// where the next one starts.
fn advance_by_line(s: &[u8], p: Place, to: usize) -> Place
    requires { IsPlace s.now p × (p.offset ≤ to) × (to ≤ length s.now) }
    ensures { result ≡ place_at s.now to }
{
    let mut c = Scan {
        line: p.line,
        column: p.column,
        half: 0,
    };
    let mut at = p.offset;
    while at < to {
        let b = s[at];
        if text::is_eol(b) {
            c = step(c, b);
            at += 1;
            continue;
        }
        let end = line_end(&s[..to], at);
        c = along(c, end - at);
        at = end;
    }
    Place {
        offset: to,
        line: c.line,
        column: c.column,
    }
}

// 1 for LF, 0 for any other byte.
#[tactic(auto, unfolding(crate::specs::Lines::feed))]
fn feed(b: u8) -> u8
    ensures { result ≡ feed_of b }
{
    u8::from(b == b'\n')
}

// The answer of a block that holds a CR.
const HAS_RETURN: u8 = 255;

// How many of a block's bytes are LF, or `HAS_RETURN`; every byte is looked at here too.
fn feeds_in_block(block: &[u8; 32]) -> u8
    ensures { result ≡ feeds_or 255 32 block.now 0 }
{
    let mut carriage = false;
    let mut count: u8 = 0;
    for b in block {
        carriage |= *b == b'\r';
        count += feed(*b);
    }
    if carriage { HAS_RETURN } else { count }
}

// How many bytes of a part are LF, or one more than it has bytes where one is CR.
fn line_feeds(part: &[u8]) -> usize
    ensures { result ≡ feeds_or (length part.now + 1) (length part.now) part.now 0 }
{
    let (blocks, rest) = part.as_chunks::<32>();
    let mut count: usize = 0;
    for block in blocks {
        let feeds = feeds_in_block(block);
        if feeds == HAS_RETURN {
            return part.len() + 1;
        }
        count += feeds as usize;
    }
    for b in rest {
        if *b == b'\r' {
            return part.len() + 1;
        }
        count += feed(*b) as usize;
    }
    count
}

// Where a part's last line begins: behind its last LF, or where it starts itself.
fn last_start(s: &[u8], from: usize, to: usize) -> usize
    requires { (from ≤ to) × (to ≤ length s.now) }
    ensures { result ≡ last_start (to - from) s.now from }
{
    for i in (from..to).rev() {
        if s[i] == b'\n' {
            return i + 1;
        }
    }
    from
}

// The place of a later offset, from the place of an earlier one. Where no CR stands between, each LF is a line end by
// itself.
pub fn advance(s: &[u8], p: Place, to: usize) -> Place
    requires { IsPlace s.now p × (p.offset ≤ to) × (to ≤ length s.now) }
    ensures { result ≡ place_at s.now to }
{
    let from = p.offset;
    let feeds = line_feeds(&s[from..to]);
    if to - from < feeds {
        return advance_by_line(s, p, to);
    }
    if feeds == 0 {
        return Place {
            offset: to,
            line: p.line,
            column: p.column + (to - from),
        };
    }
    let start = last_start(s, from, to);
    Place {
        offset: to,
        line: p.line + feeds,
        column: to - start + 1,
    }
}

// The place of any offset; behind the end it is the end's line and column.
pub fn place_at(s: &[u8], to: usize) -> Place
    ensures { result ≡ place_at s.now to }
{
    let start = Place {
        offset: 0,
        line: 1,
        column: 1,
    };
    if to <= s.len() {
        return advance(s, start, to);
    }
    let end = advance(s, start, s.len());
    Place {
        offset: to,
        line: end.line,
        column: end.column,
    }
}
