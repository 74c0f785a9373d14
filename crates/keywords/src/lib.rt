// Keywords: in any letter case, as prefixes; in the strict reading three of them as whole words alone.
#![tactic(auto)]

ghost use Rattle.std.specs.Prelude.{◌≡◌, ◌<◌, drop};
ghost use Rattle.keywords.specs.Keywords.{starts_at, key_data, key_save, is_word, stands, reserved, is_free_letter};

use rules::Reading;

// No reserved word starts with a byte below it.
const LOWEST: u8 = b'D';

// Whether a keyword, written in lower case, stands at an offset in any letter case.
pub fn start_with(s: &[u8], at: usize, key: &[u8]) -> bool
    ensures { result ≡ starts_at key.now s.now at }
{
    let rest = text::rest(s, at);
    if rest.len() < key.len() {
        return false;
    }
    for (i, c) in key.iter().enumerate() {
        if folding::to_lower(rest[i]) != *c {
            return false;
        }
    }
    true
}

// Whether `data_` stands at an offset.
pub fn at_data(s: &[u8], at: usize) -> bool
    ensures { result ≡ starts_at key_data s.now at }
{
    start_with(s, at, b"data_")
}

// Whether `save_` does.
pub fn at_save(s: &[u8], at: usize) -> bool
    ensures { result ≡ starts_at key_save s.now at }
{
    start_with(s, at, b"save_")
}

// Whether a keyword is the whole word at an offset, in any letter case.
#[tactic(auto, unfolding(crate::specs::Keywords::is_word))]
fn is_word(s: &[u8], at: usize, key: &[u8]) -> bool
    ensures { result ≡ is_word key.now (drop at s.now) }
{
    start_with(s, at, key) && words::parse_identifier(s, at) - at == key.len()
}

// Whether a keyword stands at an offset: as a prefix, or in the strict reading as a whole word. Asked for `loop_`, `global_`
// and `stop_`, and for a `save_` that closes a frame.
pub fn stands_at(reading: Reading, s: &[u8], at: usize, key: &[u8]) -> bool
    ensures { result ≡ stands reading key.now (drop at s.now) }
{
    match reading {
        Reading::First => start_with(s, at, key),
        Reading::Strict => is_word(s, at, key),
    }
}

// Whether one of the five words that start no value stands at an offset. The first byte decides which can.
pub fn is_reserved(reading: Reading, s: &[u8], at: usize) -> bool
    ensures { result ≡ reserved reading (drop at s.now) }
{
    if s.len() <= at {
        return false;
    }
    let b = s[at];
    if b < LOWEST {
        return false;
    }
    match folding::to_lower(b) {
        b'd' => at_data(s, at),
        b'g' => stands_at(reading, s, at, b"global_"),
        b'l' => stands_at(reading, s, at, b"loop_"),
        b's' => at_save(s, at) || stands_at(reading, s, at, b"stop_"),
        _ => false,
    }
}

// Whether a byte is a letter that no reserved word starts with.
#[tactic(auto, unfolding(crate::specs::Keywords::is_free_letter, text::specs::Bytes::is))]
pub fn is_free_letter(b: u8) -> bool
    ensures { result ≡ is_free_letter b }
{
    let letter = folding::to_lower(b);
    matches!(letter, b'a'..=b'z') && !matches!(letter, b'd' | b'g' | b'l' | b's')
}
