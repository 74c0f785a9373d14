// The records of stores and outlines, their bodies, and where the fields of these start.
ghost use Rattle.std.specs.Prelude.{◌≡◌, ◌+◌, ◌≤◌, ◌<◌, ◌∷◌, ◌++◌, length, IfSome};

// Whether a field of a body starts at an offset of it: P and what follows it; of numbers sign, integer, fraction, its digits, exponent and uncertainty.
pub fn starts_field(kind: u8, at: usize) -> bool {
    match at {
        0 | 4 | 8 | 12 | 16 => true,
        17 | 21 | 29 | 30 | 34 => matches!(kind, 14 | 15),
        _ => false,
    }
}

// Where a body of so many bytes ends, or the store does.
pub fn body_end(store: &[u8], from: usize, size: usize) -> usize
    requires { from ≤ length store.now }
    ensures { (from ≤ result) × (result ≤ length store.now) }
{
    from + size.min(store.len() - from)
}

// The kind of the record that bytes start with, its body, which ends where they do at the latest, and what stands behind it.
pub fn split_record<F: FnOnce(u8) -> usize>(s: &[u8], length_of: F) -> Option<(u8, &[u8], &[u8])>
    requires { F.IsAlwaysCallable length_of }
    ensures whole { IfSome result (λ r. s.now ≡ r.0 ∷ (r.1.now ++ r.2.now)) }
    ensures shorter { IfSome result (λ r. length r.1.now + length r.2.now < length s.now) }
{
    let (kind, behind) = s.split_first()?;
    let size = length_of(*kind);
    let (body, rest) = behind.split_at(size.min(behind.len()));
    Some((*kind, body, rest))
}
