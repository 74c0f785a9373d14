// What the strict reading asks of a text before it reads tokens: no line is too long, and no control byte stands in it.
#![tactic(auto)]

ghost use Rattle.std.specs.Prelude.{◌≡◌, true, ◌+◌, ◌≤◌, ◌<◌, length};
ghost use Rattle.text.specs.Blocks.{clear};
ghost use Rattle.text.specs.Runs.{span, runs};
ghost use Rattle.lines.specs.Ends.{behind_last};
ghost use Rattle.lines.specs.Lines.{is_control, no_control, is_plain, is_printed, short, screened, fits as fits_behind};

// The most bytes of a line before its end.
pub const LONGEST: usize = 2048;

// The one control byte above the others.
const DELETE: u8 = 127;

// Why a byte may not stand where it does: it is one too many on its line, or a control byte.
#[derive(Clone, Copy)]
pub enum Flaw {
    LongLine { at: usize },
    Control { at: usize },
}

// A control byte, but for tab, LF and CR.
#[tactic(auto, unfolding(crate::specs::Lines::is_control))]
fn is_control(b: u8) -> bool
    ensures { result ≡ is_control b }
{
    !matches!(b, b'\t' | b'\n' | b'\r') && (b < b' ' || b == DELETE)
}

// Whether a byte is printed, LF or one of two others: all is always asked, so that a block of bytes is compared at once.
#[tactic(auto, unfolding(crate::specs::Lines::is_printed, text::specs::Bytes::is))]
fn is_printed(b: u8, one: u8, other: u8) -> bool
    ensures { result ≡ is_printed one other b }
{
    (b == b'\n') | (b == one) | (b == other) | ((b' ' <= b) & (b < DELETE))
}

// Whether 32 bytes stand at an offset that may stand in a text: first by fewer comparisons, as most blocks have
// neither tab nor CR.
fn is_plain_block(s: &[u8], at: usize) -> bool
    ensures fits { result ≡ true → at + 32 ≤ length s.now }
    ensures plain { result ≡ runs is_plain 32 s.now at }
{
    text::is_block::<32, _>(s, at, &|b| is_printed(b, b'\n', b'\n'))
        || text::is_block::<32, _>(s, at, &|b| is_printed(b, b'\t', b'\r'))
}

// How many bytes stand before the first that is no ASCII, or a control byte that may not stand in a text: both in one
// pass, by blocks first. (`text::long_run_end` takes one test for its blocks, and here a block may pass either of two.)
pub fn plain_end(s: &[u8]) -> usize
    ensures { result ≡ span is_plain s.now }
{
    let mut at = 0;
    while is_plain_block(s, at) {
        at += 32;
    }
    text::run_end(s, at, |b| b < 128 && !is_control(b))
}

// How many bytes stand before the first control byte that may not stand in a text. Most texts are ASCII, so that few
// bytes are left behind the first scan, which stands in the code once and so within its loop.
fn control_end(s: &[u8]) -> usize
    ensures { result ≡ span no_control s.now }
{
    text::run_end(s, plain_end(s), |b| !is_control(b))
}

// Whether 16 bytes stand at an offset, none of which ends a line.
fn ends_no_line(s: &[u8], at: usize) -> bool
    ensures { result ≡ runs (clear 14 0) 16 s.now at }
{
    text::is_block::<16, _>(s, at, &|b| text::is_clear(b, text::ABOVE_LINE_ENDS, 0))
}

// Behind the last line end of so many bytes at an offset, or the offset where they have none: from their end back, by
// blocks first, as most bytes end no line. (The blocks are counted off from the end, so that no slice cuts them.)
fn behind_last(s: &[u8], from: usize, count: usize) -> usize
    requires { from + count ≤ length s.now }
    ensures { result ≡ behind_last s.now from count }
{
    let mut n = count;
    while 16 <= n && ends_no_line(s, from + n - 16) {
        n -= 16;
    }
    for i in (from..from + n).rev() {
        if text::is_eol(s[i]) {
            return i + 1;
        }
    }
    from
}

// How many bytes stand before the first that is one too many on its line; so many of the first line stand before them.
// Only the bytes behind the last line end in reach are looked at, and its block. They end no line, so that the next one
// found stands behind them: a byte is looked at a few times at most, and most are not looked at. Only a line end that was
// found tells where the loop goes on.
pub fn short_end(s: &[u8], column: usize) -> usize
    requires { column ≤ 2048 }
    ensures { result ≡ short column s.now }
{
    let mut room = LONGEST - column;
    let mut at = 0;
    loop {
        if s.len() - at <= room {
            return s.len();
        }
        let next = behind_last(s, at, room + 1);
        if next <= at {
            return at + room;
        }
        at = next;
        room = LONGEST;
    }
}

// The first byte that may not stand where it does; where one byte is both, its line counts first.
pub fn screen_bytes(s: &[u8]) -> Result<(), Flaw>
    ensures { result ≡ screened s.now }
{
    let long = short_end(s, 0);
    let control = control_end(s);
    if control < long {
        return Err(Flaw::Control { at: control });
    }
    if long < s.len() {
        return Err(Flaw::LongLine { at: long });
    }
    Ok(())
}

// Whether all bytes may stand where they do, so many of their line before them.
pub fn fits(s: &[u8], column: usize) -> bool
    requires { column ≤ 2048 }
    ensures { result ≡ fits_behind column s.now }
{
    if short_end(s, column) < s.len() {
        return false;
    }
    control_end(s) == s.len()
}
