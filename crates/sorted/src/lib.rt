// Names in order: a table of record offsets, sorted by the names that the records hold, in which a name is found by halving.
#![tactic(auto)]

ghost use Rattle.std.specs.Prelude.{◌≡◌, ℕ, ◌≤◌, ◌<◌, ◌^◌, length, IfSome};
ghost use Rattle.sorted.specs.Found.{passed, place_of, find_in};

// How many steps of the search are enough for a table.
const STEPS: usize = 14;

// Half of the entries that so many steps can tell apart.
const HALF: usize = 8191;

// Whether the record at one offset comes before that at another: by their names, in the order of `names::is_before`, and those of one name by
// their offsets. Both names are gone through once; to ask `is_before` both ways would be twice.
fn precedes(store: &[u8], area: &[u8], a: u32, b: u32) -> bool {
    let u = steps::bytes_at(store, area, a as usize);
    let v = steps::bytes_at(store, area, b as usize);
    if u.len() != v.len() {
        return u.len() < v.len();
    }
    for (x, y) in u.iter().zip(v) {
        let x = folding::to_lower(*x);
        let y = folding::to_lower(*y);
        if x != y {
            return x < y;
        }
    }
    a < b
}

// Of the two entries below one in a heap, the place of the one that comes later; none where there is neither.
fn below(store: &[u8], area: &[u8], heap: &[u32], at: usize) -> Option<usize>
    requires { at < length heap.now }
    ensures { IfSome result (λ next. (at < next) × (next < length heap.now)) }
{
    let n = heap.len();
    let next = 2 * at + 1;
    if n <= next {
        return None;
    }
    let other = next + 1;
    if other < n && precedes(store, area, heap[next], heap[other]) {
        Some(other)
    } else {
        Some(next)
    }
}

// Lets an entry sink in a heap until none below it comes later.
fn sink(store: &[u8], area: &[u8], heap: &mut [u32], root: usize)
    requires { root < length heap.now }
{
    let mut at = root;
    while let Some(next) = below(store, area, heap, at) {
        if !precedes(store, area, heap[at], heap[next]) {
            return;
        }
        heap.swap(at, next);
        at = next;
    }
}

// Makes the entries a heap: none comes before the two below it.
fn heap(store: &[u8], area: &[u8], table: &mut [u32]) {
    for root in (0..table.len() / 2).rev() {
        sink(store, area, table, root);
    }
}

// Sorts record offsets: by hand, since std's `sort_unstable_by` takes 1.9 times the comparisons where someone chose the order of the names.
pub fn sort(store: &[u8], area: &[u8], table: &mut [u32]) {
    heap(store, area, table);
    for end in (1..table.len()).rev() {
        table.swap(0, end);
        sink(store, area, &mut table[..end], 0);
    }
}

// One step of the search: past the entry in the middle, where it comes before the name.
fn pass(store: &[u8], area: &[u8], table: &[u32], at: usize, half: usize, x: &[u8]) -> usize
    requires { (at ≤ length table.now) × (half ≤ 8191) }
    ensures { result ≡ passed store.now area.now table.now at half x.now }
{
    let middle = at + half;
    let Some(offset) = table.get(middle) else {
        return at;
    };
    let entry = steps::bytes_at(store, area, *offset as usize);
    if names::is_before(entry, x) {
        middle + 1
    } else {
        at
    }
}

// How many entries come before a name, found by halving. Not by `partition_point`, which promises nothing of a table that is not sorted:
// names that are the same have one place here whatever the table is.
fn place_of(store: &[u8], area: &[u8], table: &[u32], x: &[u8]) -> usize
    ensures { result ≡ place_of store.now area.now table.now x.now }
{
    let mut at = 0;
    let mut half = HALF;
    for _step in 0..STEPS {
        at = pass(store, area, table, at, half, x);
        half /= 2;
    }
    at
}

// The offset of the record that a name is found at; none where its place holds another name.
pub fn find(store: &[u8], area: &[u8], table: &[u32], x: &[u8]) -> Option<usize>
    ensures found { result ≡ find_in store.now area.now table.now x.now }
    ensures small { IfSome result (λ at. at < 2 ^ 32) }
{
    let held = *table.get(place_of(store, area, table, x))? as usize;
    let y = steps::bytes_at(store, area, held);
    if folding::same_name(y, x) {
        Some(held)
    } else {
        None
    }
}
