// Writing a record with content: its bytes into the store, its content into the area.
#![tactic(auto)]

ghost use Rattle.std.specs.Prelude.{◌≡◌, true, cond, [], ◌+◌, ◌≤◌, length};
ghost use Rattle.records.specs.Put.{put};
ghost use Rattle.desk.specs.Written.{content_bytes};
ghost use Rattle.desk.specs.Desk.{TextAhead, Marked, WroteToken};
ghost use Rattle.desk.specs.Writer.{desk_of, Same};

use desk::{Cursor, Writer};
use kinds::Shape;
use records::Token;

// Read copies a content into the area, Outline does not.
fn copy_content(full: bool, content: &[u8], area: &mut [u8], at: usize)
    requires { full ≡ true → at + length content.now ≤ length area.old }
    ensures { area.new ≡ put at (cond full content.now []) area.old }
{
    if !full {
        return;
    }
    // Byte by byte, which the compiler makes wide: `copy_from_slice` would be a call of memmove, which the archive needs from nowhere else.
    for (i, b) in content.iter().enumerate() {
        area[at + i] = *b;
    }
}

// A record with content.
fn put_content(full: bool, store: &mut [u8], at: usize, kind: u8, token: Token, area: u32)
    requires { at + length (content_bytes full kind token area) ≤ length store.old }
    ensures { store.new ≡ put at (content_bytes full kind token area) store.old }
{
    if full {
        records::write_content(&mut store[at..], kind, token, area);
        return;
    }
    records::write_place(&mut store[at..], kind, token);
}

// A token that has content. Its marks, and those of them before it, come from the caller, who mostly knows the kind.
// The kind stays a u8, here and in the other public functions of this pass: a Kind would ask more of callers.
pub fn write_text(
    writer: &mut Writer,
    c: Cursor,
    kind: u8,
    size: usize,
    marks: usize,
    opening: usize,
) -> Cursor
    requires { TextAhead writer.old.full writer.old.text.now kind size (desk_of writer.old c)
        × Marked kind marks opening }
    ensures same { Same writer.old writer.new }
    ensures wrote { WroteToken writer.old.full writer.old.text.now kind size (desk_of writer.old c)
        (desk_of writer.new result) }
{
    let Cursor { place, at, area } = c;
    let token = desk::token_at(place, size);
    put_content(writer.full, writer.store, at, kind, token, area as u32);
    let start = place.offset + opening;
    let content = size - marks;
    copy_content(
        writer.full,
        &writer.text[start..start + content],
        writer.area,
        area,
    );
    let stored = desk::record_length(writer.full, Shape::Content);
    writer.pass(c, kind, size, stored, content)
}
