//! The search for a number that is not whole where none may stand.

ghost use Rattle.std.specs.Prelude.{◌≡◌, option_map, IfOk};
ghost use Rattle.json_tree.specs.Places.{misplaced, first_misplaced};
ghost use Rattle.json_tree.specs.Internal.Misplaced.{first_in_items, first_in_members};
ghost use Rattle.json_tree.specs.Internal.Reading.{steps_found};

use crate::place::{Place, Step};
use crate::tree::{Item, Member, Tree};
use base_types::{Memory, Sequence, Text};
use std::alloc::Global;

/// The first place of a `Version` that is not the value of a member `@version`.
pub fn first_misplaced(alloc: Global, tree: &Tree) -> Result<Option<Place>, Memory>
    ensures { IfOk result (λ found.
        option_map (λ place. place.steps) found ≡ first_misplaced tree.now) }
{
    let Some(mut steps) = find(alloc, tree, false)? else {
        return Ok(None);
    };
    steps.reverse();
    let steps = Sequence::from_vec(steps);
    Ok(Some(Place { steps }))
}

/// The steps to it, from the last to the first; `named` says whether the tree is the value of a
/// member `@version`.
#[cycle(misplaced)]
#[tactic(auto, using(crate::proofs::Searching::misplaced_steps))]
fn find(alloc: Global, tree: &Tree, named: bool) -> Result<Option<Vec<Step>>, Memory>
    ensures { IfOk result (λ found. steps_found found ≡ misplaced tree.now named) }
{
    match tree {
        Tree::Null | Tree::Bool(_) | Tree::Whole(_) | Tree::Text(_) => Ok(None),
        Tree::Version => {
            if named {
                Ok(None)
            } else {
                Ok(Some(Vec::new(alloc)))
            }
        }
        Tree::List(items) => find_in_items(alloc, items.as_slice()),
        Tree::Object(members) => find_in_members(alloc, members.as_slice()),
    }
}

#[cycle(misplaced)]
#[tactic(auto, using(crate::proofs::Searching::misplaced_steps))]
fn find_in_items(alloc: Global, items: &[Item]) -> Result<Option<Vec<Step>>, Memory>
    ensures { IfOk result (λ found. steps_found found ≡ first_in_items items.now) }
{
    for item in items {
        if let Some(mut steps) = find(alloc, &item.value, false)? {
            steps.push(Step::At(item.at))?;
            return Ok(Some(steps));
        }
    }
    Ok(None)
}

#[cycle(misplaced)]
#[tactic(auto, using(crate::proofs::Searching::misplaced_steps))]
fn find_in_members(alloc: Global, members: &[Member]) -> Result<Option<Vec<Step>>, Memory>
    ensures { IfOk result (λ found. steps_found found ≡ first_in_members members.now) }
{
    for member in members {
        let named = member.key.as_str() == "@version";
        if let Some(mut steps) = find(alloc, &member.value, named)? {
            steps.push(Step::Key(Text::from_str(alloc, member.key.as_str())?))?;
            return Ok(Some(steps));
        }
    }
    Ok(None)
}
