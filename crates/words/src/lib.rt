// Words, and the bytes that start a bare value.
#![tactic(auto)]

ghost use Rattle.std.specs.Prelude.{◌≡◌, ◌<◌};
ghost use Rattle.words.specs.Words.{in_word, end_of_word, is_ordinary};
ghost use Rattle.words.specs.Names.{name_fits, fits_tag, heading_fits};

use rules::Reading;

// The longest tokens with a name in the strict reading: a tag with its `_`, a heading with its keyword.
const TAG_MOST: usize = 75;

const HEADING_MOST: usize = 80;

// Whether a byte goes on a word.
fn in_word(b: u8) -> bool
    ensures { result ≡ in_word b }
{
    !text::ends_word(b)
}

// Where the word that starts at an offset ends.
pub fn parse_identifier(s: &[u8], from: usize) -> usize
    ensures { result ≡ end_of_word s.now from }
{
    text::run_end(s, from, in_word)
}

// The same where the word may be long, as the name of a tag: by blocks first.
pub fn long_word_end(s: &[u8], from: usize) -> usize
    ensures { result ≡ end_of_word s.now from }
{
    text::long_run_end::<8, _, _>(
        s,
        from,
        |b| text::is_clear(b, text::ABOVE_SPACE, 0),
        in_word,
    )
}

// Whether a bare value may start with this byte: a printable one, `!` to `~`, but for those that start something else.
#[tactic(auto, unfolding(crate::specs::Words::is_ordinary))]
pub fn is_ordinary(b: u8) -> bool
    ensures { result ≡ is_ordinary b }
{
    matches!(b, b'!'..=b'~') && !matches!(b, b'#' | b'$' | b'\'' | b'"' | b'_' | b'[' | b']' | b';')
}

// Whether the name of a token that starts with its mark may stand: in the strict reading it is not empty, nor too long.
fn name_fits(reading: Reading, mark: usize, most: usize, size: usize) -> bool
    ensures { result ≡ name_fits reading mark most size }
{
    match reading {
        Reading::First => true,
        Reading::Strict => mark < size && size <= most,
    }
}

// Whether the name of a tag of so many bytes may stand.
pub fn tag_fits(reading: Reading, size: usize) -> bool
    ensures { result ≡ fits_tag reading size }
{
    name_fits(reading, 1, TAG_MOST, size)
}

// Whether that of a heading, `data_` or `save_` and its name, may.
pub fn heading_fits(reading: Reading, size: usize) -> bool
    ensures { result ≡ heading_fits reading size }
{
    name_fits(reading, 5, HEADING_MOST, size)
}
