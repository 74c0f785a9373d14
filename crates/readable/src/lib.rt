// Whether a content could be read as its kind, by its own bytes, its marks left out; here by the first reading, and what is alike in both.
#![tactic(auto)]

ghost use Rattle.std.specs.Prelude.{◌≡◌, ◌∷◌, [], ◌++◌, ◌^◌, ◌<◌, length};
ghost use Rattle.quotes.specs.Content.{plain};
ghost use Rattle.values.specs.Alone.{is_alone};
ghost use Rattle.readable.specs.Readable.{is_name, readable_by};

use found::Found;
use kinds::Kind;
use rules::Reading;

// One word, perhaps an empty one.
pub fn is_name(content: &[u8]) -> bool
    ensures { result ≡ is_name content.now }
{
    words::parse_identifier(content, 0) == content.len()
}

// A bare value at the start of a line, and nothing behind it.
pub fn is_bare(reading: Reading, content: &[u8]) -> bool
    requires { length content.now < 2 ^ 32 }
    ensures { result ≡ is_alone reading 10 10 content.now }
{
    let Found::Value { kind, size } = Found::of(values::pack_value(reading, content, 0)) else {
        return false;
    };
    kind == Kind::BARE && size == content.len()
}

// Neither the mark nor a line end: the content of a quoted value of the first reading.
fn is_plain(content: &[u8], mark: u8) -> bool
    ensures { result ≡ plain mark content.now }
{
    for b in content {
        if *b == mark || text::is_eol(*b) {
            return false;
        }
    }
    true
}

// The content of a text field: its line end is the first that a `;` can follow.
pub fn is_field(reading: Reading, content: &[u8]) -> bool
    ensures { result ≡ is_alone reading 10 13 (59 ∷ (content.now ++ (59 ∷ []))) }
{
    let size = content.len();
    if size == 0 {
        return false;
    }
    if !text::is_eol(content[size - 1]) {
        return false;
    }
    quotes::parse_multiline_string(content, 0).is_none()
}

// Whether a content could be read as its kind in the first reading, if it is all ASCII.
#[tactic(auto, unfolding(crate::specs::Readable::readable_by))]
pub fn is_first(kind: Kind, content: &[u8]) -> bool
    requires { length content.now < 2 ^ 32 }
    ensures { result ≡ readable_by Reading.First kind content.now }
{
    match kind {
        Kind::Block | Kind::FrameOpen | Kind::Tag | Kind::LoopTag => is_name(content),
        Kind::Bare => is_bare(Reading::First, content),
        Kind::SingleQuoted => is_plain(content, b'\''),
        Kind::DoubleQuoted => is_plain(content, b'"'),
        Kind::Multiline => is_field(Reading::First, content),
        Kind::Quoted => false,
        _ => false,
    }
}
