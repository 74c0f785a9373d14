// What a text comes to before any room is looked at: its refusal with its place, or the room that its records need.
#![tactic(auto)]

ghost use Rattle.std.specs.Prelude.{◌≡◌, ◌≤◌, length};
ghost use Rattle.rules.specs.declared.Reading.TheVariants.{Strict};
ghost use Rattle.text.specs.Limits.{limit};
ghost use Rattle.text.specs.Runs.{span};
ghost use Rattle.lines.specs.Lines.{no_control};
ghost use Rattle.grammar.specs.Reading.{decided, checked, outline as outline_of};
ghost use Rattle.decisions.specs.Decisions.{told, tells};
ghost use Rattle.judging.specs.Judging.{judgement, judged_as};

use grammar::{Cause, Fault};
use refusals::Refusal;
use rules::Reading;
use sizes::Sizes;

// The bytes of the largest text.
const LIMIT: usize = 16777216;

// What a text within the limits comes to in the strict reading: long lines and control bytes first, then what the tokens say.
fn decide_screened(s: &[u8]) -> Result<Sizes, Fault>
    requires { length s.now ≤ limit }
    ensures { told result ≡ tells (checked Strict s.now (decided Strict s.now)) }
{
    lines::screen_bytes(s)?;
    deciding::lex_cif(Reading::Strict, s)
}

// The same of a text whose bytes are all ASCII and no control bytes: only long lines are left to look for, which is faster than
// the screen.
fn decide_plain(s: &[u8]) -> Result<Sizes, Fault>
    requires short { length s.now ≤ limit }
    requires plain { length s.now ≤ span no_control s.now }
    ensures { told result ≡ tells (checked Strict s.now (decided Strict s.now)) }
{
    let fault = Cause::LongLine.at(lines::short_end(s, 0));
    if fault.at < s.len() {
        return Err(fault);
    }
    deciding::lex_cif(Reading::Strict, s)
}

// What a text within the limits comes to.
fn decide(reading: Reading, s: &[u8]) -> Result<Sizes, Fault>
    requires { length s.now ≤ limit }
    ensures { told result ≡ tells (checked reading s.now (decided reading s.now)) }
{
    match reading {
        Reading::First => deciding::lex_cif(Reading::First, s),
        Reading::Strict => decide_screened(s),
    }
}

// What a text comes to that is not too long: the bytes of 128 or more first, then what the others and the tokens say.
fn decide_bytes(reading: Reading, s: &[u8]) -> Result<Sizes, Fault>
    requires { length s.now ≤ limit }
    ensures { told result ≡ tells (outline_of reading s.now) }
{
    // one pass for ASCII and control bytes, which most strict texts need no second look at
    if let Reading::Strict = reading {
        if s.len() <= lines::plain_end(s) {
            return decide_plain(s);
        }
    }
    let ascii = text::ascii_end(s);
    if ascii < s.len() {
        return Err(Cause::NotAscii.at(ascii));
    }
    decide(reading, s)
}

// The room that a text's records need, or its refusal with its place; the text's length comes first.
pub fn judge(reading: Reading, s: &[u8]) -> Result<Sizes, Refusal>
    ensures { judged_as result ≡ judgement s.now (outline_of reading s.now) }
{
    if LIMIT < s.len() {
        return Err(Refusal::TooLong);
    }
    match decide_bytes(reading, s) {
        Ok(sizes) => Ok(sizes),
        Err(Fault { cause, at }) => {
            let place = places::place_at(s, at);
            Err(Refusal::At { cause, place })
        }
    }
}
