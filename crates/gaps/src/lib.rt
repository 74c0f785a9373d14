// Space and comments: where they end, and the place behind them.
#![tactic(auto)]

ghost use Rattle.std.specs.Prelude.{◌≡◌, ◌+◌, ◌-◌, ◌<◌};
ghost use Rattle.text.specs.Bytes.{is, space};
ghost use Rattle.text.specs.Runs.{span_end};
ghost use Rattle.gaps.specs.Gaps.{gap_end, shows_no_gap};
ghost use Rattle.places.specs.Places.{place_at, IsPlace};

use places::{Place, Scan};

// The end of the space and comments that start at an offset, where a comment may be long: it is left at its line's end.
// Only a comment that was passed over tells where the loop goes on.
fn comments_end(s: &[u8], from: usize) -> usize
    ensures { result ≡ gap_end s.now from }
{
    let mut at = from;
    loop {
        at = text::run_end(s, at, text::is_space);
        if s.len() <= at || s[at] != b'#' {
            return at;
        }
        at = places::line_end(s, at);
    }
}

// Where the run of space bytes at an offset ends.
pub fn spaces_end(s: &[u8], from: usize) -> usize
    ensures { result ≡ span_end (is space) s.now from }
{
    text::run_end(s, from, |b| b == b' ')
}

// Whether one look shows that no space or comment starts at an offset; most bytes that start something else are above
// `#`.
#[tactic(auto, unfolding(crate::specs::Gaps::shows_no_gap))]
pub fn shows_no_gap(s: &[u8], at: usize) -> bool
    ensures { result ≡ shows_no_gap s.now at }
{
    s.len() <= at || b'#' < s[at]
}

// The end of the space and comments that start at an offset. Most often there are only space bytes: the loop calls
// nothing.
pub fn gap_end(s: &[u8], from: usize) -> usize
    ensures { result ≡ gap_end s.now from }
{
    let at = spaces_end(s, from);
    if shows_no_gap(s, at) {
        at
    } else {
        comments_end(s, at)
    }
}

// The place behind the space and comments at a place: where there is only space, end and place are found in one loop.
pub fn trim_comments_and_whitespace(s: &[u8], p: Place) -> Place
    requires { IsPlace s.now p }
    ensures { result ≡ place_at s.now (gap_end s.now p.offset) }
{
    let mut c = Scan {
        line: p.line,
        column: p.column,
        half: 0,
    };
    let mut at = p.offset;
    while at < s.len() {
        let b = s[at];
        if b == b'#' {
            return places::advance(s, p, comments_end(s, at));
        }
        if !text::is_space(b) {
            break;
        }
        c = places::step(c, b);
        at += 1;
    }
    Place {
        offset: at,
        line: c.line,
        column: c.column,
    }
}

// The same on a lent place, which moves on.
pub fn skip_on(s: &[u8], p: &mut Place)
    requires { IsPlace s.now p.old }
    ensures { p.new ≡ place_at s.now (gap_end s.now p.old.offset) }
{
    *p = trim_comments_and_whitespace(s, *p);
}
