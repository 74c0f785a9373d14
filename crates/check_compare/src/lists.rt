// Compare's answer and its list, written out.
use harness::parts::{counted, is_all, part, room};
use harness::say::Answer;
use harness::stores::Pair;
use rules::Reading;
use std::io::Write;
use std::{fmt, io};

// The bytes of the list's buffer: 30 entries and two bytes.
const LIST: usize = 512;

// The bytes of an entry: a case, and two record numbers of eight each.
const ENTRY: usize = 17;

// What stands in the list before.
const BEFORE: u8 = 170;

// A record number, whose upper six bytes are 0 in stores as small as these.
#[derive(Clone, Copy)]
struct Record(u64);

impl fmt::Display for Record {
    fn fmt<W: fmt::Write>(&self, f: &mut fmt::Formatter<W>) -> fmt::Result {
        write!(f, " {}", self.0 % 65536)?;
        if self.0 < 65536 {
            return Ok(());
        }
        f.write_str(" TOO LARGE")
    }
}

// An entry's case and both its record numbers, each behind a space.
#[derive(Clone, Copy)]
struct Entry<'a>(&'a [u8; ENTRY]);

impl fmt::Display for Entry<'_> {
    fn fmt<W: fmt::Write>(&self, f: &mut fmt::Formatter<W>) -> fmt::Result {
        let entry = self.0;
        let bytes = &entry[..];
        write!(f, " {}", bytes[0])?;
        for record in bytes[1..].as_chunks::<8>().0 {
            write!(f, "{}", Record(u64::from_le_bytes(*record)))?;
        }
        Ok(())
    }
}

fn each_entry<W: Write>(out: &mut W, list: &[u8]) -> io::Result<()> {
    let (entries, rest) = list.as_chunks::<ENTRY>();
    for entry in entries {
        write!(out, ",{}", Entry(entry))?;
    }
    if rest.is_empty() {
        return Ok(());
    }
    write!(out, ", NO WHOLE ENTRIES")
}

// Compare with so much room: the answer, whether all bytes that are not counted kept their values, and the entries.
pub fn compared<W: Write>(
    out: &mut W,
    reading: Reading,
    old: Pair<'_>,
    new: Pair<'_>,
    size: usize,
) -> io::Result<()> {
    let mut list = [BEFORE; LIST];
    let answer = comparing::report(comparing::compare(
        reading,
        old.store,
        old.area,
        new.store,
        new.area,
        room(&mut list, size),
    ));
    let length = counted(answer, answer.first);
    write!(out, " ->{}", Answer(answer))?;
    if !is_all(&list, length, BEFORE) {
        write!(out, ", THE REST CHANGED")?;
    }
    each_entry(out, part(&list, 0, length))
}
