// Names of a store: which records hold one, when two are the same, which comes first, and the number by which they are spread.
#![tactic(auto)]

ghost use Rattle.std.specs.Prelude.{◌≡◌, ℕ};
ghost use Rattle.names.specs.Names.{same_both, block_after, scope_after, is_name_kind};
ghost use Rattle.names.specs.Order.{less_name};
ghost use Rattle.names.specs.Numbers.{mix as mix_of, hash_of};
ghost use Rattle.names.specs.Parts.{name_of};

use kinds::Kind;

// A name: its record's offset and number, its scope, and its bytes.
#[derive(Clone, Copy)]
pub struct Named<'a> {
    pub at: usize,
    pub number: usize,
    pub scope: usize,
    pub bytes: &'a [u8],
}

// Whether two names are the same in the same scope.
#[tactic(auto, using(crate::proofs::Same::part_whole), unfolding(crate::specs::Names::same_both))]
pub fn same_both(x: Named<'_>, y: Named<'_>) -> bool
    ensures { result ≡ same_both (name_of x.entry) (name_of y.entry) }
{
    x.scope == y.scope && folding::same_name(x.bytes, y.bytes)
}

// Whether one name comes before another: the shorter first, then by their bytes, folded. Names that are the same stand alike to any other.
pub fn is_before(u: &[u8], v: &[u8]) -> bool
    ensures { result ≡ less_name u.now v.now }
{
    if u.len() != v.len() {
        return u.len() < v.len();
    }
    // An index into the other name: of what a `zip` gives a proof knows too little.
    for (i, x) in u.iter().enumerate() {
        let x = folding::to_lower(*x);
        let y = folding::to_lower(v[i]);
        if x != y {
            return x < y;
        }
    }
    false
}

// Whether records of a kind hold a name. Kinds by their numbers here and below: `Kind` would take fewer of them.
#[tactic(auto, unfolding(crate::specs::Names::is_name_kind))]
pub fn is_name(kind: u8) -> bool
    ensures { result ≡ is_name_kind kind }
{
    matches!(kind, Kind::TAG | Kind::LOOP_TAG)
}

// The block behind a record: its number is that of its own record.
#[tactic(auto, unfolding(crate::specs::Names::block_after))]
pub fn block_after(kind: u8, number: usize, block: usize) -> usize
    ensures { result ≡ block_after kind number block }
{
    if kind == Kind::BLOCK { number } else { block }
}

// The scope behind a record: the block or the frame that it opens, or behind a frame its block again.
#[tactic(auto, unfolding(crate::specs::Names::scope_after))]
pub fn scope_after(kind: u8, number: usize, block: usize, scope: usize) -> usize
    ensures { result ≡ scope_after kind number block scope }
{
    match kind {
        Kind::BLOCK | Kind::FRAME_OPEN => number,
        Kind::FRAME_CLOSE => block,
        _ => scope,
    }
}

// One byte more of a name's number.
#[tactic(auto, unfolding(crate::specs::Numbers::mix))]
fn mix(h: usize, b: u8) -> usize
    ensures { result ≡ mix_of h b }
{
    h % 4294967296 * 698769069 + (h / 4294967296 + b as usize)
}

// The number by which a name is spread over the table.
pub fn hash_name(x: Named<'_>) -> usize
    ensures { result ≡ hash_of (name_of x.entry) }
{
    let h = x
        .bytes
        .iter()
        .fold(x.scope, |h, b| mix(h, folding::to_lower(*b)));
    mix(mix(h, 0), 0)
}
