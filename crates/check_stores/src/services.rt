// All services on one store and its area: whether they agree on what is sound, and whether a sound store is read back from its rendering.
use harness::fields::split_record;
use harness::parts::part;
use harness::stores::{Pair, ROOM};
use kinds::Kind;
use rules::Reading;
use std::fmt;
use stores::Walked;

#[derive(Clone, Copy)]
pub enum Judged {
    Sound,
    NotSound,
    // A service answers otherwise than the others.
    Disagree,
}

impl fmt::Display for Judged {
    fn fmt<W: fmt::Write>(&self, f: &mut fmt::Formatter<W>) -> fmt::Result {
        f.write_str(match self {
            Judged::Sound => "sound",
            Judged::NotSound => "not sound",
            Judged::Disagree => "THE SERVICES DISAGREE",
        })
    }
}

// Whether a service's refusal number is 12 exactly where the store is not sound.
fn agrees(is_sound: bool, number: usize) -> bool {
    is_sound == (number != 12)
}

// Whether the first record, which is the block's in a sound store, has its content, and otherwise none.
fn has_part(reading: Reading, is_sound: bool, pair: Pair<'_>) -> bool {
    let answer = stores::report(stores::find_content(reading, pair.store, pair.area, 0));
    let content = stores::content_part(reading, pair.store, pair.area, 0);
    let wanted = if is_sound { content.len() } else { 0 };
    agrees(is_sound, answer.number) && content == part(pair.area, 0, wanted)
}

// Whether the walk by offset meets records up to the end, and their contents fill the area in order.
fn walks(pair: Pair<'_>) -> bool {
    let mut at = 0;
    let mut filled: usize = 0;
    for _ in 0..pair.store.len() {
        if at == pair.store.len() {
            return filled == pair.area.len();
        }
        let Some(
            Walked {
                from,
                size,
                next,
                ..
            },
        ) = stores::record_at(pair.store, pair.area, at)
        else {
            return false;
        };
        if size != 0 && from != filled {
            return false;
        }
        filled = filled.wrapping_add(size);
        at = next;
    }
    at == pair.store.len()
}

// Whether two stores have the same kinds and the same bytes behind each place.
fn same_but_places(a: &[u8], b: &[u8]) -> bool {
    if a.len() != b.len() {
        return false;
    }
    let mut rest = a;
    let mut others = b;
    while let Some((kind, body, behind)) = split_record(rest, Kind::body_length) {
        let Some((other_kind, other, others_behind)) = split_record(others, Kind::body_length)
        else {
            return false;
        };
        let place = Kind::outline_length(kind);
        if kind != other_kind || body.get(place..) != other.get(place..) {
            return false;
        }
        rest = behind;
        others = others_behind;
    }
    true
}

// Whether a rendered text is read as the store and the area that it comes from.
fn reads_back(reading: Reading, text: &[u8], pair: Pair<'_>) -> bool {
    let mut again = [0u8; ROOM];
    let mut contents = [0u8; ROOM];
    let read = reading::report(reading::read(reading, text, &mut again, &mut contents));
    read.number == 0
        && pair.area == part(&contents, 0, read.second)
        && same_but_places(pair.store, part(&again, 0, read.first))
}

// Whether a store is rendered where it is sound, and, if that is asked, read back.
fn renders(reading: Reading, is_sound: bool, pair: Pair<'_>, and_back: bool) -> bool {
    let mut text = [0u8; 2 * ROOM];
    let rendered = rendering::report(rendering::render(reading, pair.store, pair.area, &mut text));
    if !is_sound {
        return rendered.number == 12;
    }
    rendered.number == 0 && (!and_back || reads_back(reading, part(&text, 0, rendered.first), pair))
}

// The name check takes long, since it clears a large table: it is made only if that is asked.
fn names(reading: Reading, is_sound: bool, pair: Pair<'_>, asked: bool) -> bool {
    !asked
        || {
            let answer = naming::report(naming::check_names(reading, pair.store, pair.area));
            agrees(is_sound, answer.number)
        }
}

// Is it sound, and do the services agree on that? The name check and the way back from the rendering are asked only if all are.
pub fn judge(reading: Reading, pair: Pair<'_>, by_all: bool) -> Judged {
    let is_sound = stores::is_sound(reading, pair.store, pair.area);
    let agree = has_part(reading, is_sound, pair)
        && renders(reading, is_sound, pair, by_all)
        && names(reading, is_sound, pair, by_all)
        && (!is_sound || walks(pair));
    match (agree, is_sound) {
        (true, true) => Judged::Sound,
        (true, false) => Judged::NotSound,
        (false, _) => Judged::Disagree,
    }
}
