//! Equality of items.

ghost use Rattle.std.specs.Prelude.{◌≡◌, ◌↔◌, IsTrue};

use crate::item::{Item, Pair};

#[cycle(equality)]
#[tactic(auto, using(crate::proofs::EqualItems::equality_steps))]
fn are_equal(a: &Item, b: &Item) -> bool
    ensures { IsTrue result ↔ (a.now ≡ b.now) }
{
    match (a, b) {
        (Item::Whole(m), Item::Whole(n)) => *m == *n,
        (Item::Blob(x), Item::Blob(y)) => x.as_slice() == y.as_slice(),
        (Item::Text(x), Item::Text(y)) => x.as_bytes() == y.as_bytes(),
        (Item::List(x), Item::List(y)) => are_equal_lists(x.as_slice(), y.as_slice()),
        (Item::Map(x), Item::Map(y)) => are_equal_pairs(x.as_slice(), y.as_slice()),
        _ => false,
    }
}

#[cycle(equality)]
#[tactic(auto, using(crate::proofs::EqualItems::equality_steps))]
fn are_equal_lists(a: &[Item], b: &[Item]) -> bool
    ensures { IsTrue result ↔ (a.now ≡ b.now) }
{
    if a.len() != b.len() {
        return false;
    }
    for i in 0..a.len() {
        if !are_equal(&a[i], &b[i]) {
            return false;
        }
    }
    true
}

#[cycle(equality)]
#[tactic(auto, using(crate::proofs::EqualItems::equality_steps))]
fn are_equal_pairs(a: &[Pair], b: &[Pair]) -> bool
    ensures { IsTrue result ↔ (a.now ≡ b.now) }
{
    if a.len() != b.len() {
        return false;
    }
    for i in 0..a.len() {
        if a[i].key != b[i].key || !are_equal(&a[i].value, &b[i].value) {
            return false;
        }
    }
    true
}

/// Two items are equal where they are of one kind and hold the same.
impl PartialEq for Item {
    ghost use Rattle.std.specs.Cmp.Rules.{comparing};
    ghost use Rattle.std.proofs.Common.{rules};
    ghost use Rattle.cbor_core.specs.Equality.{equal_items};

    ghost eq = { equal_items };

    ghost laws = { Prim.search (comparing, rules) };

    fn eq(&self, other: &Item) -> bool {
        are_equal(self, other)
    }
}

impl Eq for Item {
    ghost use Rattle.std.specs.Cmp.Rules.{comparing};
    ghost use Rattle.std.proofs.Common.{rules};

    ghost laws = { Prim.search (comparing, rules) };
}
