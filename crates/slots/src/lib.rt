// A table of marks: which numbers were met. It answers "perhaps" where it cannot tell, and never "no" for a number that it took in.
#![tactic(auto)]

ghost use Rattle.std.specs.Prelude.{◌≡◌, ℕ, ◌+◌, ◌≤◌};
ghost use Rattle.slots.specs.Slots.{slot_of, mark_of, holds_in, free_in, known, entered};

// The slots of a table: 48 KiB.
pub const SLOTS: usize = 12288;

// How many slots are looked at for a number.
const PROBES: usize = 16;

// The first of them is one of so many, so that the others are in the table too.
const STARTS: usize = 12272;

// So many are enough for a few numbers.
const FEW: usize = 512;

// The first slot at which a number is looked for.
#[tactic(auto, unfolding(crate::specs::Slots::slot_of))]
fn slot_of(many: bool, h: usize) -> usize
    ensures { result ≡ slot_of many h }
{
    if many { h % STARTS } else { h % FEW }
}

// The mark that a slot keeps of a number; 0 is an empty slot.
#[tactic(auto, unfolding(crate::specs::Slots::mark_of))]
fn mark_of(h: usize) -> u32
    ensures { result ≡ mark_of h }
{
    (h / 1073741824 % 4294967295 + 1) as u32
}

// Whether one of the slots holds a mark. Every slot is looked at, so that they are compared many at once.
fn holds(table: &[u32; SLOTS], from: usize, mark: u32) -> bool
    requires { from + 16 ≤ 12288 }
    ensures { result ≡ holds_in table.now 16 from mark }
{
    let mut met = false;
    for slot in &table[from..from + PROBES] {
        met |= *slot == mark;
    }
    met
}

// The first empty one of the slots, if one is.
fn free_slot(table: &[u32; SLOTS], from: usize) -> Option<usize>
    requires { from + 16 ≤ 12288 }
    ensures { result ≡ free_in table.now 16 from }
{
    for slot in from..from + PROBES {
        if table[slot] == 0 {
            return Some(slot);
        }
    }
    None
}

// Whether a number may have been met.
#[tactic(auto, using(crate::proofs::Slots::within), unfolding(crate::specs::Slots::known))]
pub fn is_known(table: &[u32; SLOTS], many: bool, h: usize) -> bool
    ensures { result ≡ known table.now many h }
{
    holds(table, slot_of(many, h), mark_of(h))
}

// Takes a number in, where a slot is free for it.
#[tactic(auto, using(crate::proofs::Slots::within))]
pub fn note(table: &mut [u32; SLOTS], many: bool, h: usize)
    ensures { table.new ≡ entered table.old many h }
{
    if let Some(slot) = free_slot(table, slot_of(many, h)) {
        table[slot] = mark_of(h);
    }
}

// How many slots numbers are looked for in.
fn reach(many: bool) -> usize
    ensures { result ≤ 12288 }
{
    if many { SLOTS } else { FEW + PROBES }
}

// Empties them.
pub fn clear(table: &mut [u32; SLOTS], many: bool) {
    table[..reach(many)].fill(0);
}
