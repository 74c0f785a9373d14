// The service Render: a sound store and its area, as a text again.
#![tactic(auto)]

ghost use Rattle.std.specs.Prelude.{◌≡◌, ◌+◌, ◌-◌, ◌≤◌, ◌<◌, length};
ghost use Rattle.records.specs.Put.{front};
ghost use Rattle.entries.specs.Walk.{entries};
ghost use Rattle.rendering.specs.Rendering.{rendering, capped, render_answer, render_out, rendered_report};
ghost use Rattle.stores.specs.Soundness.{Owned};

use entries::Entry;
use places::Report;
use rules::Reading;

// Why nothing is rendered: 12; 1; or 11 with the length needed.
#[derive(Clone, Copy)]
pub enum RenderError {
    NotSound,
    TooLong,
    NoRoom { length: usize },
}

// The answer in document 01's numbers: the length that was written, or why none was.
#[tactic(auto, unfolding(crate::specs::Rendering::rendered_report, places::specs::Reports::success, places::specs::Reports::refused_bare, places::specs::Reports::no_room))]
pub fn report(answer: Result<usize, RenderError>) -> Report
    ensures { result ≡ rendered_report answer }
{
    match answer {
        Ok(length) => Report::lengths(0, length, 0),
        Err(RenderError::NotSound) => Report::bare(12),
        Err(RenderError::TooLong) => Report::bare(1),
        Err(RenderError::NoRoom { length }) => Report::lengths(11, length, 0),
    }
}

// The largest rendering.
const LIMIT: usize = 16777216;

// The length of all lines, or one over the limit as soon as they are over it: from record to record, as nesting goes.
fn rendered_length(reading: Reading, store: &[u8], area: &[u8]) -> usize
    requires { Owned reading area.now (entries store.now) }
    ensures { result ≡ capped (length (rendering reading store.now area.now)) }
{
    let mut from = 0;
    let mut total = 0;
    while from < store.len() {
        let Some(Entry { kind, fields, next }) = entries::read_record(store, from) else {
            return total;
        };
        let line = record_lines::line_length(reading, area, kind, fields);
        if LIMIT - total < line {
            return LIMIT + 1;
        }
        total += line;
        from = next;
    }
    total
}

// All lines, into a text that has room for them.
fn write_lines(reading: Reading, store: &[u8], area: &[u8], out: &mut [u8])
    requires { Owned reading area.now (entries store.now) × (length (rendering reading store.now area.now) ≤ length out.old) }
    ensures { out.new ≡ front (rendering reading store.now area.now) out.old }
{
    let mut from = 0;
    let mut at = 0;
    while from < store.len() {
        let Some(Entry { kind, fields, next }) = entries::read_record(store, from) else {
            return;
        };
        at = record_lines::write_line(reading, out, at, area, kind, fields);
        from = next;
    }
}

// A store and its area as a text: the store is judged, then the length, then the room.
pub fn render(
    reading: Reading,
    store: &[u8],
    area: &[u8],
    out: &mut [u8],
) -> Result<usize, RenderError>
    ensures { (rendered_report result ≡ render_answer reading store.now area.now (length out.old)) × (out.new ≡ render_out reading store.now area.now out.old) }
{
    if !stores::is_sound(reading, store, area) {
        return Err(RenderError::NotSound);
    }
    let length = rendered_length(reading, store, area);
    if LIMIT < length {
        return Err(RenderError::TooLong);
    }
    if out.len() < length {
        return Err(RenderError::NoRoom { length });
    }
    write_lines(reading, store, area, out);
    Ok(length)
}
