// What two numbers are to each other.
#![tactic(auto)]

ghost use Rattle.std.specs.Prelude.{◌≡◌, false, ◌&&◌, eqb};
ghost use Rattle.amounts.specs.Exact.{Kept};
ghost use Rattle.number_cases.specs.Numbers.{case_number, same_parts, equal_case, numbers_case};

use entries::Parts;
use std::cmp::Ordering;

// What two values are to each other, in the order of document 02's numbers; `Same`, which is 0, is no entry.
#[derive(Clone, Copy, PartialEq, Eq)]
pub enum Case {
    Same,
    OnlyOld,
    OnlyNew,
    Different,
    OldLarger,
    NewLarger,
    Uncertainty,
    Rewritten,
}

impl Case {
    // The number that an entry has.
    pub fn number(self) -> u8
        ensures { result ≡ case_number self }
    {
        self as u8
    }
}

// Whether parts and kind are the same.
fn same_number(kind: u8, kind2: u8, p: Parts, q: Parts) -> bool
    ensures { result ≡ (eqb kind kind2 && same_parts p q) }
{
    p == q && kind == kind2
}

// The case of numbers whose values are equal and whose kinds or parts are not.
fn equal_case(uncertainties: Ordering) -> Case
    ensures { result ≡ equal_case uncertainties false }
{
    match uncertainties {
        Ordering::Equal => Case::Rewritten,
        Ordering::Less | Ordering::Greater => Case::Uncertainty,
    }
}

// The case of two numbers; most are the same, which is told first.
// Kinds come as numbers: the type of kinds has fewer values, and would ask more.
pub fn numbers_case(kind: u8, kind2: u8, p: Parts, q: Parts) -> Case
    requires { Kept p × Kept q }
    ensures { result ≡ numbers_case kind kind2 p q }
{
    if same_number(kind, kind2, p, q) {
        return Case::Same;
    }
    match amounts::order_values(p, q) {
        Ordering::Greater => Case::OldLarger,
        Ordering::Less => Case::NewLarger,
        Ordering::Equal => equal_case(amounts::order_uncertainties(p, q)),
    }
}
