// What is found where a value may stand, packed into one number and taken apart again; and a bare word, the plainest value.
#![tactic(auto)]

ghost use Rattle.std.specs.Prelude.{◌≡◌, ◌-◌, ◌<◌, ◌^◌, length};
ghost use Rattle.words.specs.Words.{end_of_word};
ghost use Rattle.found.specs.Packing.{number_of_why, pack, why_of_number, unpacked_of};

use kinds::Kind;

// Why no value stands here; in the strict reading also since no space parts it from the token before.
#[derive(Clone, Copy)]
pub enum Why {
    AtEnd,
    Reserved,
    NoStart,
    OpenQuote,
    OpenField,
    Joined,
}

// What stands where a value may: one, by its kind and length; a number over a digit limit; none.
#[derive(Clone, Copy)]
pub enum Found {
    Value { kind: u8, size: usize },
    Over,
    Missing { why: Why },
}

// What is found is packed into one number, since one comes back from a call in a register, an enum through memory, which
// was measured and is slower; `Found::of` takes it apart. A value is its kind and its length times `KINDS`; what is no value has no length, and a
// number below `KINDS` says what it is: the reason's own, or `OVER`.
const KINDS: usize = 32;

impl Why {
    pub const AT_END: usize = 1;

    pub const RESERVED: usize = 2;

    pub const NO_START: usize = 3;

    pub const OPEN_QUOTE: usize = 4;

    pub const OPEN_FIELD: usize = 5;

    pub const JOINED: usize = 15;

    // Document 02's number.
    pub fn number(self) -> usize
        ensures { result ≡ number_of_why self }
    {
        match self {
            Why::AtEnd => Why::AT_END,
            Why::Reserved => Why::RESERVED,
            Why::NoStart => Why::NO_START,
            Why::OpenQuote => Why::OPEN_QUOTE,
            Why::OpenField => Why::OPEN_FIELD,
            Why::Joined => Why::JOINED,
        }
    }
}

// A value, packed.
// (A kind by its number: a `Kind` would ask more of callers.)
#[tactic(auto, unfolding(crate::specs::Packing::pack))]
pub fn packed(kind: u8, size: usize) -> usize
    requires { size < 2 ^ 32 }
    ensures { result ≡ pack kind size }
{
    usize::from(kind) + size * KINDS
}

// A word that is no number.
pub fn pack_bare(s: &[u8], at: usize) -> usize
    requires { (length s.now < 2 ^ 32) × (at < length s.now) }
    ensures { result ≡ pack 10 (end_of_word s.now at - at) }
{
    let end = words::parse_identifier(s, at);
    packed(Kind::BARE, end - at)
}

// Why no value stands, by its number.
#[tactic(auto, unfolding(crate::specs::Packing::why_of_number))]
fn why_of(token: usize) -> Why
    ensures { result ≡ why_of_number token }
{
    match token {
        Why::AT_END => Why::AtEnd,
        Why::RESERVED => Why::Reserved,
        Why::NO_START => Why::NoStart,
        Why::OPEN_QUOTE => Why::OpenQuote,
        Why::JOINED => Why::Joined,
        _ => Why::OpenField,
    }
}

impl Found {
    pub const OVER: usize = 6;

    // What a packed number says.
    #[tactic(auto, unfolding(crate::specs::Packing::unpacked_of))]
    pub fn of(token: usize) -> Found
        ensures { result ≡ unpacked_of token }
    {
        if KINDS <= token {
            let kind = token % KINDS;
            Found::Value {
                kind: kind as u8,
                size: token / KINDS,
            }
        } else if token == Found::OVER {
            Found::Over
        } else {
            Found::Missing { why: why_of(token) }
        }
    }
}
