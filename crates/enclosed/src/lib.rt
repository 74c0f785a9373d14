// Values between marks: quoted ones and text fields.
#![tactic(auto)]

ghost use Rattle.std.specs.Prelude.{◌≡◌, false, ◌<◌, ◌^◌, length};
ghost use Rattle.rules.specs.declared.Reading.TheVariants.{Strict};
ghost use Rattle.text.specs.Bytes.{is_eol};
ghost use Rattle.found.specs.Packing.{packed_of};
ghost use Rattle.enclosed.specs.Pieces.{quote_kind, quote_at, field_at, semicolon_at};

use found::Why;
use kinds::Kind;
use rules::Reading;

// The kind of a quoted value: that of its mark, or in the strict reading one for both.
fn quote_kind(reading: Reading, kind: u8) -> u8
    ensures { result ≡ quote_kind reading kind }
{
    match reading {
        Reading::First => kind,
        Reading::Strict => Kind::QUOTED,
    }
}

// A quoted value, from its opening mark on.
// (A kind by its number: a `Kind` would ask more of callers.)
pub fn pack_quote(reading: Reading, s: &[u8], at: usize, mark: u8, kind: u8) -> usize
    requires { (length s.now < 2 ^ 32) × (at < length s.now) × (is_eol mark ≡ false) }
    ensures { result ≡ packed_of (quote_at reading mark kind s.now at) }
{
    let Some(end) = quotes::parse_quoted(reading, s, at + 1, mark) else {
        return Why::OPEN_QUOTE;
    };
    found::packed(quote_kind(reading, kind), end - at)
}

// A text field, from its opening `;` on.
fn pack_field(s: &[u8], at: usize) -> usize
    requires { (length s.now < 2 ^ 32) × (at < length s.now) }
    ensures { result ≡ packed_of (field_at s.now at) }
{
    let Some(end) = quotes::parse_multiline_string(s, at + 1) else {
        return Why::OPEN_FIELD;
    };
    found::packed(Kind::MULTILINE, end - at)
}

// `;` in the strict reading: in column 1 a text field, elsewhere bare text.
fn pack_strict_semicolon(s: &[u8], at: usize) -> usize
    requires { (length s.now < 2 ^ 32) × (at < length s.now) }
    ensures { result ≡ packed_of (semicolon_at Strict s.now at) }
{
    if text::is_eol(columns::byte_before(s, at)) {
        pack_field(s, at)
    } else {
        found::pack_bare(s, at)
    }
}

// `;`, by the reading.
pub fn pack_semicolon(reading: Reading, s: &[u8], at: usize) -> usize
    requires { (length s.now < 2 ^ 32) × (at < length s.now) }
    ensures { result ≡ packed_of (semicolon_at reading s.now at) }
{
    match reading {
        Reading::First => pack_field(s, at),
        Reading::Strict => pack_strict_semicolon(s, at),
    }
}
