// Damage: each byte of a store and of its area takes all 256 values, one at a time, and how many of them leave the store sound is written. The services must agree on each.
ghost use Rattle.std.specs.Prelude.{◌≡◌, ◌<◌, ◌≤◌, length};

use crate::services;
use crate::services::Judged;
use harness::fields;
use harness::stores::Pair;
use kinds::Kind;
use rules::Reading;
use std::io;
use std::io::Write;

// What came of a number of stores.
#[derive(Clone, Copy, Default)]
struct Tally {
    sound: u32,
    not_sound: u32,
    disagree: u32,
}

impl Tally {
    // With one store more.
    fn with(self, judged: Judged) -> Tally {
        match judged {
            Judged::Sound => Tally {
                sound: self.sound.wrapping_add(1),
                ..self
            },
            Judged::NotSound => Tally {
                not_sound: self.not_sound.wrapping_add(1),
                ..self
            },
            Judged::Disagree => Tally {
                disagree: self.disagree.wrapping_add(1),
                ..self
            },
        }
    }

    // Of these stores and others.
    fn and(self, other: Tally) -> Tally {
        Tally {
            sound: self.sound.wrapping_add(other.sound),
            not_sound: self.not_sound.wrapping_add(other.not_sound),
            disagree: self.disagree.wrapping_add(other.disagree),
        }
    }
}

// All values of the byte at an offset, which is put back then; how many are sound is written. `judge` is told what is damaged, and whether to ask the name check and the way
// back from the rendering too: they are tried at 20 of the values.
fn try_byte<W: Write, F: Fn(&[u8], bool) -> Judged>(
    out: &mut W,
    damaged: &mut [u8],
    at: usize,
    judge: F,
) -> io::Result<Tally>
    requires lies_inside { at < length damaged.old }
    requires judges { F.IsAlwaysCallable judge }
{
    let before = damaged[at];
    let mut tally = Tally::default();
    for value in 0..=u8::MAX {
        damaged[at] = value;
        tally = tally.with(judge(damaged, value % 13 == 1));
    }
    damaged[at] = before;
    write!(out, " {}", tally.sound)?;
    Ok(tally)
}

// A record, a line: its kind, and the counts of its bytes, field by field.
fn try_record<W: Write, F: Fn(&[u8], bool) -> Judged>(
    out: &mut W,
    store: &mut [u8],
    at: usize,
    end: usize,
    judge: F,
) -> io::Result<Tally>
    requires lies_inside { (at < end) × (end ≤ length store.old) }
    requires judges { F.IsAlwaysCallable judge }
{
    let kind = store[at];
    write!(out, "   {kind:02x}")?;
    let mut tally = try_byte(out, store, at, &judge)?;
    let body = at + 1;
    for i in body..end {
        if fields::starts_field(kind, i - body) {
            write!(out, " |")?;
        }
        tally = tally.and(try_byte(out, store, i, &judge)?);
    }
    writeln!(out)?;
    Ok(tally)
}

fn try_store<W: Write>(
    out: &mut W,
    reading: Reading,
    store: &mut [u8],
    area: &[u8],
) -> io::Result<Tally> {
    let judge = |store: &[u8], by_all: bool| services::judge(reading, Pair { store, area }, by_all);
    let mut tally = Tally::default();
    let mut at = 0; // an offset, since the whole store is judged while a byte of it is changed
    while at < store.len() {
        let end = fields::body_end(store, at + 1, Kind::body_length(store[at]));
        tally = tally.and(try_record(out, store, at, end, &judge)?);
        at = end;
    }
    Ok(tally)
}

fn try_area<W: Write>(
    out: &mut W,
    reading: Reading,
    area: &mut [u8],
    store: &[u8],
) -> io::Result<Tally> {
    let judge = |area: &[u8], by_all: bool| services::judge(reading, Pair { store, area }, by_all);
    let mut tally = Tally::default();
    for at in 0..area.len() {
        tally = tally.and(try_byte(out, area, at, &judge)?);
    }
    Ok(tally)
}

fn say_all<W: Write>(out: &mut W, all: Tally) -> io::Result<()> {
    let Tally {
        sound,
        not_sound,
        disagree,
    } = all;
    writeln!(
        out,
        "   sound {sound}, not sound {not_sound}, disagreed on {disagree}"
    )
}

pub fn run<W: Write>(
    out: &mut W,
    reading: Reading,
    store: &mut [u8],
    area: &mut [u8],
) -> io::Result<()> {
    let stores = try_store(out, reading, store, area)?;
    write!(out, "   area")?;
    let areas = try_area(out, reading, area, store)?;
    writeln!(out)?;
    say_all(out, stores.and(areas))
}
