// What opens an item, a frame or a block, by the reading: in the strict one `loop_` is a whole word, and space parts each token from
// the one before. The bytes are looked at first, since they tell most offsets. Each function is those bytes' test and the one of
// the space: one function for all five would take the first as a closure, and be no plainer.
#![tactic(auto)]

ghost use Rattle.std.specs.Prelude.{◌≡◌, ◌≤◌, length};
ghost use Rattle.grammar.specs.Tokens.{tag_at, loop_at, save_at, close_at, data_at};
ghost use Rattle.openings.specs.Openings.{name_end};

use rules::Reading;

// Whether a tag stands at an offset.
pub fn at_tag(reading: Reading, s: &[u8], at: usize) -> bool
    requires { at ≤ length s.now }
    ensures { result ≡ tag_at reading s.now at }
{
    at < s.len() && s[at] == b'_' && columns::is_parted(reading, s, at)
}

// Whether `loop_` does.
pub fn at_loop(reading: Reading, s: &[u8], at: usize) -> bool
    requires { at ≤ length s.now }
    ensures { result ≡ loop_at reading s.now at }
{
    keywords::stands_at(reading, s, at, b"loop_") && columns::is_parted(reading, s, at)
}

// Whether `save_` does.
pub fn at_save(reading: Reading, s: &[u8], at: usize) -> bool
    requires { at ≤ length s.now }
    ensures { result ≡ save_at reading s.now at }
{
    keywords::at_save(s, at) && columns::is_parted(reading, s, at)
}

// Whether a `save_` does that closes a frame: in the strict reading one without a name.
pub fn at_close(reading: Reading, s: &[u8], at: usize) -> bool
    requires { at ≤ length s.now }
    ensures { result ≡ close_at reading s.now at }
{
    keywords::stands_at(reading, s, at, b"save_") && columns::is_parted(reading, s, at)
}

// Whether `data_` does.
pub fn at_data(reading: Reading, s: &[u8], at: usize) -> bool
    requires { at ≤ length s.now }
    ensures { result ≡ data_at reading s.now at }
{
    keywords::at_data(s, at) && columns::is_parted(reading, s, at)
}

// Where the tag at an offset ends; where none may stand, that offset.
pub fn name_end(reading: Reading, s: &[u8], at: usize) -> usize
    requires { at ≤ length s.now }
    ensures { result ≡ name_end reading s.now at }
{
    if !at_tag(reading, s, at) {
        return at;
    }
    let end = words::long_word_end(s, at);
    if words::tag_fits(reading, end - at) {
        return end;
    }
    at
}
