// Replays the fixed list of the source's answers: each of its texts goes through Read and Outline, and what they answer is held to the list and to each other. Each entry that
// differs is named; at the end the passed ones are counted by their answers.
#![tactic(auto)]

mod floats;
mod list;
mod same;

use harness::input;
use list::Entry;
use same::Difference;
use std::io;
use std::io::{Read, Write};

// The largest list, in bytes.
const LONGEST: usize = 524288;

// How many entries passed, by the answer that the list has and in all, and how many failed.
#[derive(Clone, Copy, Default)]
struct Counts {
    by_answer: [u32; 8],
    passed: u32,
    failed: u32,
}

impl Counts {
    fn note_passed(&mut self, number: usize) {
        self.passed = self.passed.saturating_add(1);
        if number < 8 {
            self.by_answer[number] = self.by_answer[number].saturating_add(1);
        }
    }

    fn note_failed(&mut self) {
        self.failed = self.failed.saturating_add(1);
    }
}

fn say_counts<W: Write>(out: &mut W, counts: &Counts) -> io::Result<()> {
    writeln!(out, "read: {}", counts.by_answer[0])?;
    for number in 3..8usize {
        writeln!(out, "refused by {number}: {}", counts.by_answer[number])?;
    }
    writeln!(out, "{} passed, {} failed", counts.passed, counts.failed)
}

fn replay<W: Write>(out: &mut W, told: u32, entries: &[u8]) -> io::Result<()> {
    let mut counts = Counts::default();
    let mut tried: u32 = 0;
    let mut rest = entries;
    while !rest.is_empty() {
        let outcome = match Entry::split(rest) {
            Some((entry, behind)) => {
                rest = behind;
                same::judge(entry).map(|()| entry.number)
            }
            None => {
                rest = &[];
                Err(Difference::CutOff)
            }
        };
        match outcome {
            Ok(number) => counts.note_passed(number),
            Err(difference) => {
                writeln!(out, "entry {tried} {difference}")?;
                counts.note_failed();
            }
        }
        tried = tried.wrapping_add(1);
    }
    if tried != told {
        writeln!(out, "the list has another number of entries than it says")?;
        counts.note_failed();
    }
    say_counts(out, &counts)
}

// Room for a list. It stands in a function of its own, since its caller's proof then knows its length and need not
// count it.
fn room() -> [u8; LONGEST] {
    [0u8; LONGEST]
}

// Replays the list on standard input, which is read into what is lent.
fn replay_input<R: Read, W: Write>(input: &mut R, out: &mut W, lent: &mut [u8]) -> io::Result<()> {
    let n = input::read_full(input, lent)?;
    match list::entries(&lent[..n]) {
        Some((told, entries)) => replay(out, told, entries),
        None => writeln!(out, "this is no list of the length that it says"),
    }
}

fn main(rt: HostRuntime) -> io::Result<()> {
    let mut lent = room();
    replay_input(&mut rt.stdin(), &mut rt.stdout(), &mut lent)
}
