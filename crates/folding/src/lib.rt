// Letter case: A to Z taken as a to z, and names that are the same once that is done.
#![tactic(auto)]

ghost use Rattle.std.specs.Prelude.{◌≡◌};
ghost use Rattle.folding.specs.Folding.{lower, same_name};

// A to Z as a to z; every other byte as it is.
#[tactic(auto, unfolding(crate::specs::Folding::lower))]
pub fn to_lower(b: u8) -> u8
    ensures { result ≡ lower b }
{
    b.to_ascii_lowercase()
}

// Whether two names are the same: the one place that decides when names are equal.
pub fn same_name(x: &[u8], y: &[u8]) -> bool
    ensures { result ≡ same_name x.now y.now }
{
    x.eq_ignore_ascii_case(y)
}
