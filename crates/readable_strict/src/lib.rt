// Whether a content could be read as its kind in the strict reading, by its own bytes, its marks left out.
#![tactic(auto)]

ghost use Rattle.std.specs.Prelude.{◌≡◌, false, ◌^◌, ◌≤◌, ◌<◌, length};
ghost use Rattle.kinds.specs.declared.Kind.TheVariants.{Block, Tag, Bare, Quoted};
ghost use Rattle.quotes.specs.Content.{strict_plain};
ghost use Rattle.readable.specs.Tokens.{is_led};
ghost use Rattle.readable.specs.Readable.{is_heading, is_tag, is_value, readable_by, is_kept};
ghost use Rattle.readable_strict.specs.Columns.{column_of};

use kinds::Kind;
use rules::Reading;

// The name of a block or frame: not empty, and not too long.
#[tactic(auto, using(crate::proofs::Kept::heading_by))]
fn is_heading(content: &[u8]) -> bool
    requires { length content.now < 2 ^ 32 }
    ensures { result ≡ is_heading Reading.Strict Block content.now }
{
    words::heading_fits(Reading::Strict, 5 + content.len()) && readable::is_name(content)
}

// The name of a tag: so too.
#[tactic(auto, using(crate::proofs::Kept::tag_by))]
fn is_tag(content: &[u8]) -> bool
    requires { length content.now < 2 ^ 32 }
    ensures { result ≡ is_tag Reading.Strict Tag content.now }
{
    words::tag_fits(Reading::Strict, 1 + content.len()) && readable::is_name(content)
}

// A bare value that starts with `;`: a space stands before it.
#[tactic(auto, unfolding(readable::specs::Tokens::is_bare_field, readable::specs::Tokens::starts_field, text::specs::Bytes::is))]
pub fn is_led(reading: Reading, kind: Kind, content: &[u8]) -> bool
    ensures { result ≡ is_led reading kind content.now }
{
    matches!(reading, Reading::Strict)
        && matches!(kind, Kind::Bare)
        && matches!(content, [b';', ..])
}

// A bare value: behind a space one that starts with `;` is any word.
fn is_bare(content: &[u8]) -> bool
    requires { length content.now < 2 ^ 32 }
    ensures { result ≡ is_value Reading.Strict Bare content.now }
{
    if is_led(Reading::Strict, Kind::Bare, content) {
        return readable::is_name(content);
    }
    readable::is_bare(Reading::Strict, content)
}

// What may stand in quotes: no line end, and no space behind the mark.
fn is_inside(inside: &[u8], mark: u8) -> bool
    ensures { result ≡ strict_plain false mark inside.now }
{
    let mut closes = false;
    for b in inside {
        if text::is_eol(*b) || closes && text::is_space(*b) {
            return false;
        }
        closes = *b == mark;
    }
    true
}

// A mark, and behind it what may stand in its quotes.
#[tactic(auto, using(crate::proofs::Kept::quoted_none, crate::proofs::Kept::quoted_single, crate::proofs::Kept::quoted_double, crate::proofs::Kept::quoted_other))]
fn is_quoted(content: &[u8]) -> bool
    ensures { result ≡ is_value Reading.Strict Quoted content.now }
{
    let [mark, inside @ ..] = content else {
        return false;
    };
    (*mark == b'\'' || *mark == b'"') && is_inside(inside, *mark)
}

// Whether a content could be read as its kind, if it is all ASCII and its lines are fine.
#[tactic(auto, unfolding(readable::specs::Readable::readable_by, readable::specs::Tokens::is_bare_field, keywords::specs::Keywords::key_data, keywords::specs::Keywords::key_save))]
fn is_strict(kind: Kind, content: &[u8]) -> bool
    requires { length content.now < 2 ^ 32 }
    ensures { result ≡ readable_by Reading.Strict kind content.now }
{
    match kind {
        Kind::Block | Kind::FrameOpen => is_heading(content),
        Kind::Tag | Kind::LoopTag => is_tag(content),
        Kind::Bare => is_bare(content),
        Kind::SingleQuoted | Kind::DoubleQuoted => false,
        Kind::Multiline => readable::is_field(Reading::Strict, content),
        Kind::Quoted => is_quoted(content),
        _ => false,
    }
}

// How many bytes stand before a content on its line. The mark that closes a quoted value stands behind it on the same
// line, and is counted here.
#[tactic(auto, unfolding(crate::specs::Columns::column_of))]
fn column_of(kind: Kind, content: &[u8]) -> usize
    ensures { result ≡ column_of kind content.now }
{
    match kind {
        Kind::Block | Kind::FrameOpen => 5,
        Kind::Tag | Kind::LoopTag | Kind::Multiline | Kind::Quoted => 1,
        Kind::Bare => {
            if is_led(Reading::Strict, Kind::Bare, content) {
                1
            } else {
                0
            }
        }
        _ => 0,
    }
}

// Whether a content could be read as its kind, if it is all ASCII: by the rule of its kind, then by its lines.
#[tactic(auto, using(crate::proofs::Kept::kept_refused, crate::proofs::Kept::kept_by))]
pub fn is_kept(kind: Kind, content: &[u8]) -> bool
    requires { length content.now < 2 ^ 32 }
    ensures { result ≡ is_kept Reading.Strict kind content.now }
{
    is_strict(kind, content) && lines::fits(content, column_of(kind, content))
}
