//! Look-up in trees, one step down and along a place.

ghost use Rattle.std.specs.Prelude.{◌≡◌, ◌∷◌, [], true, IfSome, nat_lt, option_map, option_and_then, find};
ghost use Rattle.std.specs.Option.{option_copied};
ghost use Rattle.std.specs.Prelude.{◌==◌};
ghost use Rattle.json_tree.specs.declared.place.Step.TheVariants as step;
ghost use Rattle.json_tree.specs.Places.{value_of, text_of, text_at, child_of, look};
ghost use Rattle.json_tree.specs.Trees.{each_next, is_before, is_lawful};
ghost use Rattle.json_tree.specs.WellFormed.{IsWellFormed};

use crate::place::Step;
use crate::tree::{Item, Member, Tree};
use base_types::{Keyed, Text, find_by_key};

impl Keyed for Member {
    ghost text = { λ m. m.key };

    fn key(&self) -> &str {
        self.key.as_str()
    }
}

/// The value of the member of that name, found by halving.
pub fn member<'a>(members: &'a [Member], key: &str) -> Option<&'a Tree>
    requires { each_next (λ m n. is_before m.key n.key) members.now ≡ true }
    ensures { option_copied result ≡ value_of key.now members.now }
{
    match find_by_key(members, key) {
        Some(found) => Some(&found.value),
        None => None,
    }
}

/// The text of the member of that name.
pub fn text_member<'a>(members: &'a [Member], key: &str) -> Option<&'a Text>
    requires { each_next (λ m n. is_before m.key n.key) members.now ≡ true }
    ensures { option_copied result ≡ text_at key.now members.now }
{
    member(members, key)?.as_text()
}

/// The element with that index in the list as it was read, found by halving.
pub fn element(items: &[Item], at: u64) -> Option<&Tree>
    requires { each_next (λ i j. nat_lt i.at j.at) items.now ≡ true }
    ensures { option_copied result ≡ option_map (λ i. i.value) (find (λ i. i.at == at) items.now) }
{
    match items.binary_search_by_key(&at, |item| item.at) {
        Ok(found) => Some(&items[found].value),
        Err(_) => None,
    }
}

/// What stands one step below: the member of that name, or the element of that index.
fn child<'a>(tree: &'a Tree, step: &Step) -> Option<&'a Tree>
    requires { is_lawful tree.now ≡ true }
    ensures value { option_copied result ≡ child_of tree.now step.now }
    ensures lawful { IfSome result (λ t. is_lawful t.now ≡ true) }
{
    match (tree, step) {
        (Tree::Object(members), Step::Key(key)) => member(members.as_slice(), key.as_str()),
        (Tree::List(items), Step::At(at)) => element(items.as_slice(), *at),
        _ => None,
    }
}

/// What stands at the end of the steps, where they lead somewhere.
pub fn look<'a>(tree: &'a Tree, steps: &[Step]) -> Option<&'a Tree>
    requires { is_lawful tree.now ≡ true }
    ensures value { option_copied result ≡ look steps.now tree.now }
    ensures lawful { IfSome result (λ t. is_lawful t.now ≡ true) }
    ensures well_formed { IsWellFormed tree.now → IfSome result (λ t. IsWellFormed t.now) }
{
    let mut here = tree;
    for step in steps {
        here = child(here, step)?;
    }
    Some(here)
}

impl Tree {
    /// The value of the member of that name.
    pub fn get(&self, key: &str) -> Option<&Tree>
        requires { is_lawful self.now ≡ true }
        ensures value { option_copied result ≡ look (step.Key key.now ∷ []) self.now }
        ensures lawful { IfSome result (λ t. is_lawful t.now ≡ true) }
        ensures well_formed { IsWellFormed self.now → IfSome result (λ t. IsWellFormed t.now) }
    {
        member(self.as_object()?, key)
    }

    /// The text of the member of that name.
    pub fn get_text(&self, key: &str) -> Option<&Text>
        requires { is_lawful self.now ≡ true }
        ensures { option_copied result
            ≡ option_and_then text_of (look (step.Key key.now ∷ []) self.now) }
    {
        self.get(key)?.as_text()
    }

    /// The element with that index in the list as it was read.
    pub fn get_at(&self, at: u64) -> Option<&Tree>
        requires { is_lawful self.now ≡ true }
        ensures value { option_copied result ≡ look (step.At at ∷ []) self.now }
        ensures lawful { IfSome result (λ t. is_lawful t.now ≡ true) }
        ensures well_formed { IsWellFormed self.now → IfSome result (λ t. IsWellFormed t.now) }
    {
        element(self.as_list()?, at)
    }
}
