// Stores with their areas, and the buffers that they lie in.
ghost use Rattle.std.specs.Prelude.{◌≡◌, ◌≤◌, length};

use crate::parts::part;
use crate::vectors::text;
use places::Report;
use rules::Reading;

// The bytes of each buffer.
pub const ROOM: usize = 4096;

// A store and its area.
#[derive(Clone, Copy)]
pub struct Pair<'a> {
    pub store: &'a [u8],
    pub area: &'a [u8],
}

// How much there is of a store and of its area.
#[derive(Clone, Copy, Default)]
pub struct Lengths {
    pub store: usize,
    pub area: usize,
}

// The buffers of both, and how much of them counts.
#[derive(Clone, Copy)]
pub struct Buffers {
    pub store: [u8; ROOM],
    pub area: [u8; ROOM],
    pub have: Lengths,
}

impl Buffers {
    pub fn empty() -> Buffers
        ensures { (result.have.store ≡ 0) × (result.have.area ≡ 0) }
    {
        Buffers {
            store: [0; ROOM],
            area: [0; ROOM],
            have: Lengths::default(),
        }
    }

    // So much of both; nothing of a buffer that has less.
    pub fn first(&self, lengths: Lengths) -> Pair<'_>
        ensures store { length result.store.now ≤ lengths.store }
        ensures area { length result.area.now ≤ lengths.area }
    {
        Pair {
            store: part(&self.store, 0, lengths.store),
            area: part(&self.area, 0, lengths.area),
        }
    }

    // What counts.
    pub fn pair(&self) -> Pair<'_>
        ensures store { length result.store.now ≤ self.now.have.store }
        ensures area { length result.area.now ≤ self.now.have.area }
    {
        self.first(self.have)
    }
    // What Read answers to a vector's text, and what it makes of it in both buffers.
    pub fn read(&mut self, reading: Reading, s: &[u8]) -> Report {
        let mut buffer = [0u8; ROOM];
        let text = text(s, &mut buffer);
        reading::report(reading::read(reading, text, &mut self.store, &mut self.area))
    }
}
