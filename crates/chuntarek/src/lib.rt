// The functions that C and Rust call. Each hands its slices to the service of its name, in the reading that the first number names,
// and its answer on as numbers; where that number names no reading, the answer is 24 and nothing is written. That is said in each by
// `let .. else`: one function for all would take the call of the service as a closure over what is lent, and be no plainer.
#![tactic(auto)]

ghost use Rattle.std.specs.Prelude.{◌≡◌};
ghost use Rattle.answers.specs.Answers.{read_gives, store_left, area_left, outline_gives, outline_left, render_gives, render_left};
ghost use Rattle.answers.specs.Answers.{names_give, compare_gives, list_left, content_gives, part_given, record_given};

use exports::{Answer, Part, Record};
use rules::Reading;

// Reads a text: records to the store, contents to the area. What it writes is sound: promises/proofs/Exported has this
// (read-gives-sound) and what is said of the next two.
#[unsafe(no_mangle)]
pub extern "C" fn chuntarek_read(
    reading: u64,
    text: &[u8],
    store: &mut [u8],
    area: &mut [u8],
) -> Answer
    ensures answers { result ≡ read_gives reading text.now store.old area.old }
    ensures stored { store.new ≡ store_left reading text.now store.old area.old }
    ensures copied { area.new ≡ area_left reading text.now store.old area.old }
{
    let Some(known) = Reading::of(reading) else {
        return exports::no_reading();
    };
    exports::numbers_of(reading::report(reading::read(known, text, store, area)))
}

// Outlines a text: kinds and places to the store. Digits don't show (outline-hides-digits), nor in the first reading
// what stands inside quotes and text fields (outline-hides-contents).
#[unsafe(no_mangle)]
pub extern "C" fn chuntarek_outline(reading: u64, text: &[u8], store: &mut [u8]) -> Answer
    ensures answers { result ≡ outline_gives reading text.now store.old }
    ensures writes { store.new ≡ outline_left reading text.now store.old }
{
    let Some(known) = Reading::of(reading) else {
        return exports::no_reading();
    };
    exports::numbers_of(outlining::report(outlining::outline(known, text, store)))
}

// Renders a store with its area. What it writes is read back to the same (read_back).
#[unsafe(no_mangle)]
pub extern "C" fn chuntarek_render(
    reading: u64,
    store: &[u8],
    area: &[u8],
    out: &mut [u8],
) -> Answer
    ensures answers { result ≡ render_gives reading store.now area.now out.old }
    ensures writes { out.new ≡ render_left reading store.now area.now out.old }
{
    let Some(known) = Reading::of(reading) else {
        return exports::no_reading();
    };
    exports::numbers_of(rendering::report(rendering::render(known, store, area, out)))
}

// Whether a name stands twice in one scope, and in which records.
#[unsafe(no_mangle)]
pub extern "C" fn chuntarek_names(reading: u64, store: &[u8], area: &[u8]) -> Answer
    ensures { result ≡ names_give reading store.now area.now }
{
    let Some(known) = Reading::of(reading) else {
        return exports::no_reading();
    };
    exports::numbers_of(naming::report(naming::check_names(known, store, area)))
}

// What changed from an old store to a new one, as a list of entries. Nothing where it is compared with itself (itself-unchanged) or with
// what is read back of its rendering (reread-unchanged).
#[unsafe(no_mangle)]
pub extern "C" fn chuntarek_compare(
    reading: u64,
    old: &[u8],
    area: &[u8],
    new: &[u8],
    area2: &[u8],
    list: &mut [u8],
) -> Answer
    ensures answers { result ≡ compare_gives reading old.now area.now new.now area2.now list.old }
    ensures writes { list.new ≡ list_left reading old.now area.now new.now area2.now list.old }
{
    let Some(known) = Reading::of(reading) else {
        return exports::no_reading();
    };
    exports::numbers_of(comparing::report(comparing::compare(known, old, area, new, area2, list)))
}

// Whether the record of this number has a content.
#[unsafe(no_mangle)]
pub extern "C" fn chuntarek_content(reading: u64, store: &[u8], area: &[u8], number: u64) -> Answer
    ensures { result ≡ content_gives reading store.now area.now number }
{
    let Some(known) = Reading::of(reading) else {
        return exports::no_reading();
    };
    exports::numbers_of(stores::report(stores::find_content(known, store, area, number as usize)))
}

// Where in the area that content stands; an empty part where there is none.
#[unsafe(no_mangle)]
pub extern "C" fn chuntarek_content_part(
    reading: u64,
    store: &[u8],
    area: &[u8],
    number: u64,
) -> Part
    ensures { result ≡ part_given reading store.now area.now number }
{
    let Some(known) = Reading::of(reading) else {
        return exports::no_part();
    };
    exports::part_of(stores::find_content(known, store, area, number as usize))
}

// The record that starts at this offset of the store, whichever reading knows its kind.
#[unsafe(no_mangle)]
pub extern "C" fn chuntarek_record_at(reading: u64, store: &[u8], area: &[u8], at: u64) -> Record
    ensures { result ≡ record_given reading store.now area.now at }
{
    let Some(_) = Reading::of(reading) else {
        return exports::no_record();
    };
    exports::record_of(stores::record_at(store, area, at as usize))
}
