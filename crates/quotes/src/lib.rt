// Quoted values and text fields: where they close.
#![tactic(auto)]

ghost use Rattle.std.specs.Prelude.{◌≡◌, false, ◌<◌, drop};
ghost use Rattle.text.specs.Bytes.{is, is_eol, semicolon};
ghost use Rattle.text.specs.Runs.{span_end};
ghost use Rattle.text.specs.Blocks.{clear};
ghost use Rattle.quotes.specs.Quotes.{ends_here, closes as closes_by};
ghost use Rattle.quotes.specs.Answers.{mark_end, quote_end, field_end};

use rules::Reading;

// Behind the next mark on the line, if there is one. In the first reading it closes a quote; `from` is behind the mark
// that opens it.
pub fn parse_enclosed(s: &[u8], from: usize, mark: u8) -> Option<usize>
    ensures { result ≡ mark_end mark s.now from }
{
    let end = text::long_run_end::<8, _, _>(
        s,
        from,
        |b| text::is_clear(b, text::ABOVE_LINE_ENDS, mark),
        |b| b != mark && !text::is_eol(b),
    );
    if end < s.len() && s[end] == mark {
        Some(end + 1)
    } else {
        None
    }
}

// Whether space, tab, a line end or the text's end stands at an offset.
fn ends_here(s: &[u8], at: usize) -> bool
    ensures { result ≡ ends_here (drop at s.now) }
{
    s.len() <= at || text::is_space(s[at])
}

// Whether a mark closes a quote, by what stands behind it.
fn closes(reading: Reading, s: &[u8], at: usize) -> bool
    ensures { result ≡ closes_by reading (drop at s.now) }
{
    match reading {
        Reading::First => true,
        Reading::Strict => ends_here(s, at),
    }
}

// Behind the mark that closes a quote; `from` is behind the mark that opens it. The search for a mark is taken up again
// behind each that does not close, which only the search itself tells.
pub fn parse_quoted(reading: Reading, s: &[u8], from: usize, mark: u8) -> Option<usize>
    requires { is_eol mark ≡ false }
    ensures { result ≡ quote_end reading mark s.now from }
{
    let mut at = from;
    loop {
        let end = parse_enclosed(s, at, mark)?;
        if closes(reading, s, end) {
            return Some(end);
        }
        at = end;
    }
}

// Where the next `;` stands at an offset or behind it, or the text's end.
fn next_semicolon(s: &[u8], from: usize) -> usize
    ensures { result ≡ span_end (clear 0 semicolon) s.now from }
{
    text::long_run_end::<16, _, _>(s, from, |b| b != b';', |b| b != b';')
}

// Behind the `;` that closes a text field, if one does; `from` is behind the `;` that opens it. Only a `;` is looked at,
// and the byte before it.
pub fn parse_multiline_string(s: &[u8], from: usize) -> Option<usize>
    ensures { result ≡ field_end s.now from }
{
    let mut at = from;
    let end = loop {
        at = next_semicolon(s, at);
        if s.len() <= at {
            return None;
        }
        if from < at && text::is_eol(s[at - 1]) {
            break at;
        }
        at += 1;
    };
    Some(end + 1)
}
