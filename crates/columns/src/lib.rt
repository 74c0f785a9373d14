// The byte before an offset: it tells whether a line starts there, and whether space parts what stands there from what
// stands before.
#![tactic(auto)]

ghost use Rattle.std.specs.Prelude.{◌≡◌, ◌≤◌, length};
ghost use Rattle.columns.specs.Before.{byte_before, is_parted};

use rules::Reading;

// That byte; a text starts as behind an LF.
pub fn byte_before(s: &[u8], at: usize) -> u8
    requires { at ≤ length s.now }
    ensures { result ≡ byte_before s.now at }
{
    if at < 1 { b'\n' } else { s[at - 1] }
}

// Whether space parts what stands at an offset from what stands before; only the strict reading asks.
pub fn is_parted(reading: Reading, s: &[u8], at: usize) -> bool
    requires { at ≤ length s.now }
    ensures { result ≡ is_parted reading (byte_before s.now at) }
{
    match reading {
        Reading::First => true,
        Reading::Strict => text::is_space(byte_before(s, at)),
    }
}
