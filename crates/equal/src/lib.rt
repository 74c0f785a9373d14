// Whether two stretches of bytes are equal.
#![tactic(auto)]

ghost use Rattle.std.specs.Prelude.{◌≡◌};
ghost use Rattle.folding.specs.Folding.{equal_bytes};

// Byte for byte, letter case and all.
#[tactic(auto, using(crate::proofs::Bytes::bytes_pointwise))]
pub fn same_bytes(x: &[u8], y: &[u8]) -> bool
    ensures { result ≡ equal_bytes x.now y.now }
{
    x == y
}
