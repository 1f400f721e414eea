//! Trees and places compared.

ghost use Rattle.std.specs.Prelude.{◌≡◌, ◌↔◌, IsTrue};

use crate::place::{Place, Step};
use crate::tree::{Item, Member, Tree};

impl PartialEq for Tree {
    ghost use Rattle.std.specs.Prelude.{◌≡◌, ◌↔◌, IsTrue};
    ghost use Rattle.json_tree.specs.Equality.{tree_code, same_by, same_by-partial};

    ghost eq = { same_by tree_code };

    ghost laws = { same_by-partial tree_code };

    /// Whether the trees are the same, the indexes of their elements too.
    fn eq(&self, other: &Tree) -> bool
        ensures value { result ≡ same_by tree_code self.now other.now }
        ensures exact { IsTrue result ↔ (self.now ≡ other.now) }
    {
        same_trees(self, other)
    }
}

impl Eq for Tree {
    ghost use Rattle.json_tree.specs.Equality.{tree_code, same_by-equivalence};

    ghost laws = { same_by-equivalence tree_code };
}

/// Whether the trees are the same.
#[cycle(same)]
#[tactic(auto, using(crate::proofs::Sameness::same_steps))]
fn same_trees(a: &Tree, b: &Tree) -> bool
    ensures { IsTrue result ↔ (a.now ≡ b.now) }
{
    match (a, b) {
        (Tree::Null, Tree::Null) => true,
        (Tree::Bool(x), Tree::Bool(y)) => *x == *y,
        (Tree::Whole(x), Tree::Whole(y)) => *x == *y,
        (Tree::Version, Tree::Version) => true,
        (Tree::Text(x), Tree::Text(y)) => x.as_str() == y.as_str(),
        (Tree::List(x), Tree::List(y)) => same_items(x.as_slice(), y.as_slice()),
        (Tree::Object(x), Tree::Object(y)) => same_members(x.as_slice(), y.as_slice()),
        _ => false,
    }
}

#[cycle(same)]
#[tactic(auto, using(crate::proofs::Sameness::same_steps))]
fn same_items(a: &[Item], b: &[Item]) -> bool
    ensures { IsTrue result ↔ (a.now ≡ b.now) }
{
    if a.len() != b.len() {
        return false;
    }
    for i in 0..a.len() {
        if a[i].at != b[i].at || !same_trees(&a[i].value, &b[i].value) {
            return false;
        }
    }
    true
}

#[cycle(same)]
#[tactic(auto, using(crate::proofs::Sameness::same_steps))]
fn same_members(a: &[Member], b: &[Member]) -> bool
    ensures { IsTrue result ↔ (a.now ≡ b.now) }
{
    if a.len() != b.len() {
        return false;
    }
    for i in 0..a.len() {
        if a[i].key.as_str() != b[i].key.as_str() || !same_trees(&a[i].value, &b[i].value) {
            return false;
        }
    }
    true
}

/// Whether the steps are the same.
fn same_steps(a: &Step, b: &Step) -> bool
    ensures { IsTrue result ↔ (a.now ≡ b.now) }
{
    match (a, b) {
        (Step::Key(x), Step::Key(y)) => x.as_str() == y.as_str(),
        (Step::At(x), Step::At(y)) => *x == *y,
        _ => false,
    }
}

impl PartialEq for Step {
    ghost use Rattle.std.specs.Prelude.{◌≡◌, ◌↔◌, IsTrue};
    ghost use Rattle.json_tree.specs.Equality.{step_code, same_by, same_by-partial};

    ghost eq = { same_by step_code };

    ghost laws = { same_by-partial step_code };

    /// Whether the steps are the same.
    fn eq(&self, other: &Step) -> bool
        ensures value { result ≡ same_by step_code self.now other.now }
        ensures exact { IsTrue result ↔ (self.now ≡ other.now) }
    {
        same_steps(self, other)
    }
}

impl Eq for Step {
    ghost use Rattle.json_tree.specs.Equality.{step_code, same_by-equivalence};

    ghost laws = { same_by-equivalence step_code };
}

impl PartialEq for Place {
    ghost use Rattle.std.specs.Prelude.{◌≡◌, ◌↔◌, IsTrue};
    ghost use Rattle.json_tree.specs.Equality.{place_code, same_by, same_by-partial};

    ghost eq = { same_by place_code };

    ghost laws = { same_by-partial place_code };

    /// Whether the places are the same.
    fn eq(&self, other: &Place) -> bool
        ensures value { result ≡ same_by place_code self.now other.now }
        ensures exact { IsTrue result ↔ (self.now ≡ other.now) }
    {
        self.steps == other.steps
    }
}

impl Eq for Place {
    ghost use Rattle.json_tree.specs.Equality.{place_code, same_by-equivalence};

    ghost laws = { same_by-equivalence place_code };
}
