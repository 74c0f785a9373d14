// One record by itself: whether its content could be read as its kind and lies inside the area, and whether its
// decimal parts keep the limits.
#![tactic(auto)]

ghost use Rattle.std.specs.Prelude.{◌≡◌, true, ◌+◌, ◌^◌, ◌≤◌, ◌<◌, length};
ghost use Rattle.kinds.specs.Kinds.{shape_of, is_content};
ghost use Rattle.readable.specs.Tokens.{is_led};
ghost use Rattle.readable.specs.Readable.{readable};
ghost use Rattle.contents.specs.Contents.{exponent_kept, parts_kept, content_length, content_bytes, lies, own_rule};

use entries::{Fields, Parts};
use kinds::{Kind, Shape};
use rules::Reading;

// Whether a content could be read as its kind: only ASCII is.
#[tactic(auto, unfolding(readable::specs::Readable::readable))]
fn is_readable(reading: Reading, kind: Kind, content: &[u8]) -> bool
    requires { length content.now < 2 ^ 32 }
    ensures { result ≡ readable reading kind content.now }
{
    if text::ascii_end(content) != content.len() {
        return false;
    }
    match reading {
        Reading::First => readable::is_first(kind, content),
        Reading::Strict => readable_strict::is_kept(kind, content),
    }
}

// Within nine digits, as it is stored in two's complement.
#[tactic(auto, unfolding(crate::specs::Contents::exponent_kept))]
fn keeps_exponent(exponent: u32) -> bool
    ensures { result ≡ exponent_kept exponent }
{
    exponent < 1000000000 || 3294967296 < exponent
}

// 10 to a power that fits.
#[tactic(auto, using(crate::proofs::Contents::ten_below))]
pub fn ten_to(places: u8) -> u64
    requires { places ≤ 18 }
    ensures { result ≡ 10 ^ places }
{
    10_u64.pow(places as u32)
}

// Whether decimal parts keep the limits.
#[tactic(auto, unfolding(crate::specs::Contents::parts_kept))]
fn keeps_parts(parts: Parts) -> bool
    ensures { result ≡ parts_kept parts }
{
    parts.sign <= 1
        && parts.integer < 1000000000
        && parts.places <= 18
        && parts.fraction < ten_to(parts.places)
        && keeps_exponent(parts.exponent)
        && parts.uncertainty < 1000000000
}

// Whether records of a kind have content.
#[tactic(auto, unfolding(kinds::specs::Kinds::is_content))]
pub fn has_content(kind: Kind) -> bool
    ensures { result ≡ is_content (shape_of kind) }
{
    matches!(kind.shape(), Shape::Content)
}

// P's length less the marks, and 0 where it is below them.
#[tactic(auto, unfolding(crate::specs::Contents::content_length))]
pub fn content_length(kind: Kind, fields: Fields) -> usize
    ensures { result ≡ content_length kind fields }
{
    (fields.token.length as usize).saturating_sub(kind.marks())
}

// Whether a record's content lies inside an area of so many bytes.
#[tactic(auto, unfolding(crate::specs::Contents::lies, crate::specs::Contents::content_length))]
pub fn lies_inside(size: usize, kind: Kind, fields: Fields) -> bool
    ensures { result ≡ lies size kind fields }
{
    kind.marks() <= fields.token.length as usize
        && fields.number as usize + content_length(kind, fields) <= size
}

// The content that lies inside the area.
fn content_of<'a>(area: &'a [u8], kind: Kind, fields: Fields) -> &'a [u8]
    requires { lies (length area.now) kind fields ≡ true }
    ensures { result.now ≡ content_bytes area.now kind fields }
{
    let from = fields.number as usize;
    &area[from..from + content_length(kind, fields)]
}

// A record's own rule: its content lies inside the area and could be read as its kind; its decimal parts keep the
// limits.
#[tactic(auto, using(crate::proofs::Kept::rule_parts, crate::proofs::Kept::rule_outside, crate::proofs::Kept::rule_read))]
pub fn keeps_rule(reading: Reading, area: &[u8], kind: Kind, fields: Fields) -> bool
    ensures { result ≡ own_rule reading area.now kind fields }
{
    if !has_content(kind) {
        return keeps_parts(fields.parts);
    }
    lies_inside(area.len(), kind, fields)
        && is_readable(reading, kind, content_of(area, kind, fields))
}

// Whether rendering puts a space before a record's token.
pub fn is_led(reading: Reading, area: &[u8], kind: Kind, fields: Fields) -> bool
    requires { own_rule reading area.now kind fields ≡ true }
    ensures { result ≡ is_led reading kind (content_bytes area.now kind fields) }
{
    matches!(kind, Kind::Bare)
        && readable_strict::is_led(reading, kind, content_of(area, kind, fields))
}
