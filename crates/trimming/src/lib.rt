// The place behind space and comments, found the quickest way that what stands there allows.
#![tactic(auto)]

ghost use Rattle.std.specs.Prelude.{◌≡◌, ◌<◌, length};
ghost use Rattle.places.specs.Places.{IsPlace, place_at};
ghost use Rattle.gaps.specs.Gaps.{gap_end};
ghost use Rattle.trimming.specs.Placed.{placed};

use places::Place;

// The place behind space and comments: one made of three numbers and lent, which the step moves on.
pub fn trim_from(s: &[u8], offset: usize, line: usize, column: usize) -> Place
    requires { IsPlace s.now (placed offset line column) }
    ensures { result ≡ place_at s.now (gap_end s.now offset) }
{
    let mut place = Place {
        offset,
        line,
        column,
    };
    gaps::skip_on(s, &mut place);
    place
}

// The same; most often one LF stands there with space bytes behind it, and nothing is lent.
fn trim_line_first(s: &[u8], offset: usize, line: usize, column: usize) -> Place
    requires { IsPlace s.now (placed offset line column) × (offset < length s.now) }
    ensures { result ≡ place_at s.now (gap_end s.now offset) }
{
    if s[offset] == b'\n' {
        let at = gaps::spaces_end(s, offset + 1);
        if gaps::shows_no_gap(s, at) {
            return Place {
                offset: at,
                line: line + 1,
                column: at - offset,
            };
        }
    }
    trim_from(s, offset, line, column)
}

// The same; most often only space bytes stand there, and nothing is lent.
pub fn trim_spaces_first(s: &[u8], offset: usize, line: usize, column: usize) -> Place
    requires { IsPlace s.now (placed offset line column) }
    ensures { result ≡ place_at s.now (gap_end s.now offset) }
{
    let at = gaps::spaces_end(s, offset);
    let here = column + (at - offset);
    if gaps::shows_no_gap(s, at) {
        return Place {
            offset: at,
            line,
            column: here,
        };
    }
    trim_line_first(s, at, line, here)
}
