// What two values are to each other.
#![tactic(auto)]

ghost use Rattle.std.specs.Prelude.{◌≡◌, ◌&&◌};
ghost use Rattle.kinds.specs.Kinds.{number_of};
ghost use Rattle.entries.specs.Entries.{entry_at};
ghost use Rattle.cases.specs.Cases.{is_number, is_text, unmarked, agree, case_of, Orderly};

use cells::Side;
use kinds::Kind;
use number_cases::Case;

// Numbers, with or without uncertainty.
fn is_number(kind: Kind) -> bool
    ensures { result ≡ is_number (number_of kind) }
{
    matches!(kind, Kind::Number | Kind::Uncertain)
}

// Both of them.
fn are_numbers(kind: Kind, kind2: Kind) -> bool
    ensures { result ≡ (is_number (number_of kind) && is_number (number_of kind2)) }
{
    is_number(kind) && is_number(kind2)
}

// Texts, with or without marks.
fn is_text(kind: Kind) -> bool
    ensures { result ≡ is_text (number_of kind) }
{
    matches!(
        kind,
        Kind::Bare | Kind::SingleQuoted | Kind::DoubleQuoted | Kind::Multiline | Kind::Quoted
    )
}

// Both of them.
fn are_texts(kind: Kind, kind2: Kind) -> bool
    ensures { result ≡ (is_text (number_of kind) && is_text (number_of kind2)) }
{
    is_text(kind) && is_text(kind2)
}

// A text without marks.
fn text_of(kind: Kind, x: &[u8]) -> &[u8]
    ensures { result.now ≡ unmarked (number_of kind) x.now }
{
    match kind {
        Kind::Quoted => text::rest(x, Kind::QUOTE_OPENING),
        _ => x,
    }
}

// Whether two values that are not both numbers are the same.
fn do_agree(kind: Kind, x: &[u8], kind2: Kind, y: &[u8]) -> bool
    ensures { result ≡ agree (number_of kind) (number_of kind2) x.now y.now }
{
    if are_texts(kind, kind2) {
        equal::same_bytes(text_of(kind, x), text_of(kind2, y))
    } else {
        kind.number() == kind2.number()
    }
}

// The case of the records at two offsets.
pub fn case_of(here: Side<'_>, at: usize, there: Side<'_>, at2: usize) -> Case
    requires { Orderly (entry_at here.store.now at) × Orderly (entry_at there.store.now at2) }
    ensures { result ≡ case_of here.entry.area.now there.entry.area.now (entry_at here.entry.store.now at) (entry_at there.entry.store.now at2) }
{
    let Some(old) = entries::read_record(here.store, at) else {
        return Case::Different;
    };
    let Some(new) = entries::read_record(there.store, at2) else {
        return Case::Different;
    };
    if are_numbers(old.kind, new.kind) {
        let (k, j) = (old.kind.number(), new.kind.number());
        return number_cases::numbers_case(k, j, old.fields.parts, new.fields.parts);
    }
    let x = steps::bytes_at(here.store, here.area, at);
    let y = steps::bytes_at(there.store, there.area, at2);
    if do_agree(old.kind, x, new.kind, y) {
        Case::Same
    } else {
        Case::Different
    }
}
