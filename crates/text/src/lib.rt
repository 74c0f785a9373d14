// Bytes: their classes, and runs of bytes of one class.
#![tactic(auto)]

ghost use Rattle.std.specs.Prelude.{◌≡◌, ℕ, Bool, true, ◌+◌, ◌-◌, ◌≤◌, ◌<◌, length, drop, MatchOption};
ghost use Rattle.text.specs.Bytes.{is, is_ascii, is_digit, is_eol, is_space, ends_word};
ghost use Rattle.text.specs.Runs.{span, span_end, runs, Tells, Within};
ghost use Rattle.text.specs.Blocks.{clear};
ghost use Rattle.text.specs.Parts.{part};

// Ends a word, and is no space.
pub const FORM_FEED: u8 = b'\x0c';

// Every byte of a line end is below it.
pub const ABOVE_LINE_ENDS: u8 = b'\r' + 1;

// Every byte that ends a word is below it.
pub const ABOVE_SPACE: u8 = b' ' + 1;

// 0 to 9.
#[tactic(auto, unfolding(crate::specs::Bytes::is_digit))]
pub fn is_digit(b: u8) -> bool
    ensures { result ≡ is_digit b }
{
    matches!(b, b'0'..=b'9')
}

// A byte of a line end.
#[tactic(auto, unfolding(crate::specs::Bytes::is_eol))]
pub fn is_eol(b: u8) -> bool
    ensures { result ≡ is_eol b }
{
    b == b'\n' || b == b'\r'
}

// Space between tokens.
#[tactic(auto, unfolding(crate::specs::Bytes::is_space))]
pub fn is_space(b: u8) -> bool
    ensures { result ≡ is_space b }
{
    b == b' ' || b == b'\t' || b == b'\n' || b == b'\r'
}

// What a word runs to.
#[tactic(auto, unfolding(crate::specs::Bytes::ends_word))]
pub fn ends_word(b: u8) -> bool
    ensures { result ≡ ends_word b }
{
    b == b' ' || b == b'\t' || b == b'\n' || b == b'\r' || b == FORM_FEED
}

// Whether a byte is no mark and not below `least`: both are always asked, so that a block of bytes is compared at once.
#[tactic(auto, unfolding(crate::specs::Blocks::clear, crate::specs::Bytes::is))]
pub fn is_clear(b: u8, least: u8, mark: u8) -> bool
    ensures { result ≡ clear least mark b }
{
    (least <= b) & (b != mark)
}

// What stands from an offset on; behind the end nothing.
pub fn rest(s: &[u8], from: usize) -> &[u8]
    ensures { result.now ≡ drop from s.now }
{
    &s[from.min(s.len())..]
}

// So many bytes from an offset on.
#[tactic(auto, unfolding(crate::specs::Parts::part))]
pub fn part(s: &[u8], from: usize, size: usize) -> &[u8]
    requires { from + size ≤ length s.now }
    ensures { result.now ≡ part s.now from size }
{
    &s[from..from + size]
}

// The same, if so many stand there: one comparison in a loop over blocks, where `get` twice makes two.
#[tactic(auto, unfolding(crate::specs::Parts::part))]
pub fn part_at(s: &[u8], from: usize, size: usize) -> Option<&[u8]>
    ensures { MatchOption result (length s.now < from + size) (λ b. (from + size ≤ length s.now) × (b.now ≡ part s.now from size)) }
{
    if size <= s.len() && from <= s.len() - size {
        Some(part(s, from, size))
    } else {
        None
    }
}

// Where the run of bytes that pass a test ends, from an offset on. (As `take_while` and `count` its proof did not close.)
pub fn run_end<P: Fn(u8) -> bool>(s: &[u8], from: usize, passes: P) -> usize
    requires { P.IsAlwaysCallable passes }
    ensures { (p : ℕ → Bool) → Tells (P.post passes) p → result ≡ span_end p s.now from }
{
    let mut at = from;
    while at < s.len() && passes(s[at]) {
        at += 1;
    }
    at
}

// Whether a block of bytes that all pass a test stands at an offset. Every byte is looked at, so that they are compared
// many at once.
pub fn is_block<const N: usize, P: Fn(u8) -> bool>(s: &[u8], at: usize, passes: &P) -> bool
    requires wide { 0 < N }
    requires passes { P.IsAlwaysCallable passes.now }
    ensures fits { result ≡ true → at + N ≤ length s.now }
    ensures passed { (p : ℕ → Bool) → Tells (P.post passes.now) p → result ≡ runs p N s.now at }
{
    let Some(block) = part_at(s, at, N) else {
        return false;
    };
    let mut all = true;
    for b in block {
        all &= passes(*b);
    }
    all
}

// Where a run ends that may be long: by blocks first, whose bytes pass a narrower test. (A loop that goes on from block to
// block while they pass, and ends anywhere: an iterator of blocks would only hold the same offset.)
pub fn long_run_end<const N: usize, Q: Fn(u8) -> bool, P: Fn(u8) -> bool>(
    s: &[u8],
    from: usize,
    quick: Q,
    passes: P,
) -> usize
    requires wide { 0 < N }
    requires quick { Q.IsAlwaysCallable quick }
    requires passes { P.IsAlwaysCallable passes }
    ensures { (q p : ℕ → Bool) → Tells (Q.post quick) q → Tells (P.post passes) p → Within q p → result ≡ span_end p s.now from }
{
    let mut at = from;
    while is_block::<N, Q>(s, at, &quick) {
        at += N;
    }
    run_end(s, at, passes)
}

// How many bytes stand before the first that is 128 or more.
pub fn ascii_end(s: &[u8]) -> usize
    ensures { result ≡ span is_ascii s.now }
{
    long_run_end::<32, _, _>(s, 0, |b| b < 128, |b| b < 128)
}
