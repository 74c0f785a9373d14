// Frames, the blocks and the whole text: what it is refused for, or how much room its records take.
#![tactic(auto)]

ghost use Rattle.std.specs.Prelude.{◌≡◌, true, ◌≤◌, ◌<◌, length};
ghost use Rattle.text.specs.Limits.{limit};
ghost use Rattle.grammar.specs.Tokens.{save_at, data_at};
ghost use Rattle.grammar.specs.Reading.{decided};
ghost use Rattle.items.specs.Answers.{Here};
ghost use Rattle.decisions.specs.Decisions.{told, tells};
ghost use Rattle.decisions.specs.Onward.{heads_block, Stepped, Framed};
ghost use Rattle.deciding.specs.Blocks.{block_at};

use decisions::{Inside, Step};
use grammar::{Cause, Fault};
use kinds::Kind;
use rules::Reading;
use sizes::Sizes;

// The frame whose `save_` stands at an offset. The loops here walk by an offset, which only a part that is read tells.
fn parse_save_frame(reading: Reading, s: &[u8], start: usize) -> Result<Step, Fault>
    requires { Here s.now start × (save_at reading s.now start ≡ true) }
    ensures { Framed reading s.now start result }
{
    let heading = decisions::parse_heading(reading, s, start, Kind::FRAME_OPEN)?;
    let mut sizes = heading.sizes;
    let mut at = heading.next;
    loop {
        match decisions::in_frame(items::parse_data_item(reading, s, at))? {
            Inside::Read { next, sizes: more } => {
                sizes += more;
                at = next;
            }
            Inside::Dropped { stop } => {
                return closing::close_frame(reading, s, start, sizes, stop);
            }
        }
    }
}

// Whether a `data_` that begins a further block stands at an offset.
pub fn heads_block(reading: Reading, s: &[u8], at: usize) -> bool
    requires { at ≤ length s.now }
    ensures { result ≡ heads_block reading s.now at }
{
    match reading {
        Reading::First => false,
        Reading::Strict => openings::at_data(Reading::Strict, s, at),
    }
}

// The item, the frame or the heading at an offset of the block; the reason is why the loop directly before ended.
fn parse_data_item_or_save_frame(
    reading: Reading,
    s: &[u8],
    at: usize,
    reason: usize,
) -> Result<Step, Fault>
    requires { Here s.now at × (at < length s.now) }
    ensures { Stepped reading reason s.now at result }
{
    if openings::at_save(reading, s, at) {
        return parse_save_frame(reading, s, at);
    }
    if heads_block(reading, s, at) {
        return decisions::parse_heading(reading, s, at, Kind::BLOCK);
    }
    decisions::in_block(reading, s, at, reason)
}

// The blocks from the first one's `data_` on, which stands at an offset; the first reading has one.
fn parse_data_block(reading: Reading, s: &[u8], start: usize) -> Result<Sizes, Fault>
    requires { Here s.now start × (data_at reading s.now start ≡ true) }
    ensures { told result ≡ tells (block_at reading s.now start) }
{
    let mut step = decisions::parse_heading(reading, s, start, Kind::BLOCK)?;
    let mut sizes = step.sizes;
    while step.next < s.len() {
        step = parse_data_item_or_save_frame(reading, s, step.next, step.reason)?;
        sizes += step.sizes;
    }
    Ok(sizes)
}

// The room that the records of a text of at most 16,777,216 bytes take, or what it is refused for.
pub fn lex_cif(reading: Reading, s: &[u8]) -> Result<Sizes, Fault>
    requires { length s.now ≤ limit }
    ensures { told result ≡ tells (decided reading s.now) }
{
    let at = gaps::gap_end(s, 0);
    if !openings::at_data(reading, s, at) {
        return Err(Cause::NoData.at(at));
    }
    parse_data_block(reading, s, at)
}
