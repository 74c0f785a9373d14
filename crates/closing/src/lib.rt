// Where a frame ends: by the `save_` that closes it, or by what leaves it open.
#![tactic(auto)]

ghost use Rattle.std.specs.Prelude.{◌≡◌, ◌≤◌, length};
ghost use Rattle.sizes.specs.Sizes.{Upto};
ghost use Rattle.text.specs.Limits.{limit};
ghost use Rattle.items.specs.Answers.{Ready};
ghost use Rattle.closing.specs.Closing.{leaves_open, unclosed as unclosed_of, frame_end};

use decisions::Step;
use grammar::{Cause, Fault};
use kinds::Kind;
use rules::Reading;
use sizes::Sizes;

// What a 7 says directly behind a frame: nothing, since no loop of the block stands there.
const BEHIND_FRAME: usize = 0;

// Nor does it inside a frame.
const IN_FRAME: usize = 0;

// Whether what stands at an offset leaves a frame open in the strict reading: the text's end, a named `save_` or `data_`.
fn leaves_open(s: &[u8], at: usize) -> bool
    requires { at ≤ length s.now }
    ensures { result ≡ leaves_open s.now at }
{
    s.len() <= at
        || openings::at_save(Reading::Strict, s, at)
        || openings::at_data(Reading::Strict, s, at)
}

// The frame that opened at an offset does not close where its items stopped.
fn unclosed(reading: Reading, s: &[u8], start: usize, stop: usize) -> Fault
    requires { stop ≤ length s.now }
    ensures { result ≡ unclosed_of reading s.now start stop }
{
    match reading {
        Reading::First => Cause::OpenFrame.at(start),
        Reading::Strict => {
            if leaves_open(s, stop) {
                Cause::OpenFrame.at(start)
            } else {
                decisions::absent(Reading::Strict, s, stop, IN_FRAME)
            }
        }
    }
}

// A frame's items have ended: `save_` must stand where the last one stopped.
pub fn close_frame(
    reading: Reading,
    s: &[u8],
    start: usize,
    sizes: Sizes,
    stop: usize,
) -> Result<Step, Fault>
    requires { Ready s.now stop × Upto limit sizes }
    ensures { result ≡ frame_end reading s.now start sizes stop }
{
    if !openings::at_close(reading, s, stop) {
        return Err(unclosed(reading, s, start, stop));
    }
    Ok(Step {
        next: gaps::gap_end(s, stop + 5),
        sizes: sizes.with(Kind::FRAME_CLOSE, 5),
        reason: BEHIND_FRAME,
    })
}
