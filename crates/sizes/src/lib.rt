// The room that records take: in the store, in the outline and in the area.
#![tactic(auto)]

ghost use Rattle.std.specs.Prelude.{◌≡◌, cond, ◌*◌, ◌-◌, ◌≤◌};
ghost use Rattle.sizes.specs.Sizes.{added, joined, Upto};
ghost use Rattle.text.specs.Limits.{limit};
ghost use Rattle.kinds.specs.Kinds.{shape_of, is_content, marks_of};

use kinds::{Kind, Shape};
use std::ops::{Add, AddAssign};

// The room that records take; by default, that of no record.
#[derive(Clone, Copy, Default)]
pub struct Sizes {
    pub store: usize,
    pub outline: usize,
    pub area: usize,
}

// What a token of a kind and of so many bytes puts into the area: its bytes less the marks, if the kind has content.
fn content_length(kind: Kind, size: usize) -> usize
    ensures { result ≡ cond (is_content (shape_of kind)) (size - marks_of kind) 0 }
{
    match kind.shape() {
        Shape::Content => size.saturating_sub(kind.marks()),
        _ => 0,
    }
}

impl Sizes {
    // With one record more, of a kind and of a token with so many bytes. A body begins with its place, and the outline
    // has no more of it.
    // (A kind by its number: a `Kind` would ask more of callers.)
    pub fn with(self, kind: u8, size: usize) -> Sizes
        requires { Upto (limit * limit) self × (size ≤ limit) }
        ensures { result ≡ added self kind size }
    {
        let kind = Kind::of(kind);
        let body = kind.shape().length();
        Sizes {
            store: self.store + 1 + body,
            outline: self.outline + 1 + body.min(Kind::PLACE),
            area: self.area + content_length(kind, size),
        }
    }
}

// The room of both.
impl Add for Sizes {
    type Output = Sizes;

    ghost can_add = { λ z y. Upto (limit * limit) z × Upto (limit * limit) y };

    ghost add_gives = { λ z y sum. sum ≡ joined z y };

    fn add(self, other: Sizes) -> Sizes {
        Sizes {
            store: self.store + other.store,
            outline: self.outline + other.outline,
            area: self.area + other.area,
        }
    }
}

impl AddAssign for Sizes {
    ghost can_add_assign = { λ z y. Upto (limit * limit) z × Upto (limit * limit) y };

    ghost add_assign_gives = { λ z y sum. sum ≡ joined z y };

    fn add_assign(&mut self, other: Sizes) {
        *self = *self + other;
    }
}
