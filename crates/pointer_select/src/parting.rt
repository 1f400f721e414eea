//! The part of a tree that has the pointed places, made level by level.
ghost use Rattle.std.specs.Prelude.{◌≡◌, ◌++◌, ◌∷◌, [], true, map, length, nat_lt, IfOk, OnOk};
ghost use Rattle.std.specs.List.{list_all, list_any};
ghost use Rattle.json_tree.specs.declared.place.Step.TheVariants as step;
ghost use Rattle.json_tree.specs.Trees.{each_next, is_before, is_lawful, new_member};
ghost use Rattle.pointer_select.specs.Kept.{is_kept_name};
ghost use Rattle.pointer_select.specs.Internal.Parts.{restricted, keeps, is_none_left, after_steps, with_after, steps_of, StandsOnly, empties, slices, groups_now, item_part, member_part, parts_of};

use base_types::{Items, Memory, Sequence, Text, search_by_key};
use json_tree::{Item, Member, Step, Tree};
use std::alloc::Global;

fn is_kept_name(key: &str) -> bool
    ensures { result ≡ is_kept_name key.now }
{
    key == "id" || key == "type" || key == "@id" || key == "@type" || key == "@context"
}

/// Whether no step is left.
fn ends(steps: &[Step]) -> bool
    ensures { result ≡ is_none_left steps.now }
{
    match steps {
        [] => true,
        _ => false,
    }
}

/// Whether one of the places ends here.
fn one_ends(pointed: &[&[Step]]) -> bool
    ensures { result ≡ list_any (λ s. is_none_left s.now) pointed.now }
{
    pointed.iter().any(|steps| ends(steps))
}

/// The index of the member of that name.
fn index_of_member(members: &[Member], key: &str) -> Option<usize>
    requires { each_next (λ m n. is_before m.key n.key) members.now ≡ true }
    ensures { StandsOnly (step.Key key.now) (map (λ m. step.Key m.key) members.now) result }
{
    match search_by_key(members, key) {
        Ok(at) => Some(at),
        Err(_) => None,
    }
}

/// The index, in the present order, of the element with that index in the list as it was read.
fn index_of_element(items: &[Item], at: u64) -> Option<usize>
    requires { each_next (λ i j. nat_lt i.at j.at) items.now ≡ true }
    ensures { StandsOnly (step.At at) (map (λ i. step.At i.at) items.now) result }
{
    match items.binary_search_by_key(&at, |item| item.at) {
        Ok(found) => Some(found),
        Err(_) => None,
    }
}

/// The index, in the present order, of the child to which the step leads.
#[tactic(auto, using(crate::proofs::Children::children))]
fn index_of_child(tree: &Tree, step: &Step) -> Option<usize>
    requires { is_lawful tree.now ≡ true }
    ensures { StandsOnly step.now (steps_of tree.now) result }
{
    match tree {
        Tree::Object(members) => match step {
            Step::Key(key) => index_of_member(members.as_slice(), key.as_str()),
            Step::At(_) => None,
        },
        Tree::List(items) => match step {
            Step::At(at) => index_of_element(items.as_slice(), *at),
            Step::Key(_) => None,
        },
        Tree::Null | Tree::Bool(_) | Tree::Whole(_) | Tree::Version | Tree::Text(_) => None,
    }
}

/// As many empty groups.
#[tactic(auto, using(crate::proofs::Groups::filling))]
fn empty_groups<'a>(alloc: Global, count: usize) -> Result<Vec<Sequence<&'a [Step]>>, Memory>
    ensures { IfOk result (λ groups. groups.items ≡ empties count) }
{
    let mut groups = Vec::new(alloc);
    while groups.len() < count {
        groups.push(Sequence::new(alloc))?;
    }
    Ok(groups)
}

/// Puts what the steps go on with into the group of the child to which they lead.
#[tactic(auto, using(crate::proofs::Groups::adding))]
fn add<'a>(
    tree: &Tree,
    groups: &mut Vec<Sequence<&'a [Step]>>,
    steps: &'a [Step],
) -> Result<(), Memory>
    requires lawful { is_lawful tree.now ≡ true }
    requires all { length groups.old.items ≡ length (steps_of tree.now) }
    ensures { OnOk result (groups_now groups.new.items
        ≡ with_after steps.now (steps_of tree.now) (groups_now groups.old.items)) }
{
    match steps.split_first() {
        None => Ok(()),
        Some((first, rest)) => match index_of_child(tree, first) {
            Some(at) => {
                groups[at].push(rest)?;
                Ok(())
            }
            None => Ok(()),
        },
    }
}

/// For each child in the present order, what the places that lead to it go on with.
#[tactic(auto, using(crate::proofs::Groups::grouping))]
fn groups_of<'a>(
    alloc: Global,
    tree: &Tree,
    count: usize,
    pointed: &[&'a [Step]],
) -> Result<Vec<Sequence<&'a [Step]>>, Memory>
    requires lawful { is_lawful tree.now ≡ true }
    requires all { count ≡ length (steps_of tree.now) }
    ensures { IfOk result (λ groups. groups_now groups.items
        ≡ map (λ step. after_steps step (slices pointed.now)) (steps_of tree.now)) }
{
    let mut groups = empty_groups(alloc, count)?;
    for steps in pointed {
        add(tree, &mut groups, steps)?;
    }
    Ok(groups)
}

/// The part of a tree with the places that are kept for the pointed ones, at least one.
#[cycle(part)]
#[tactic(auto, using(crate::proofs::PartLemmas::making))]
pub(crate) fn part_of(alloc: Global, tree: &Tree, pointed: &[&[Step]]) -> Result<Tree, Memory>
    requires { is_lawful tree.now ≡ true }
    ensures { IfOk result (λ part. part ≡ restricted tree.now (keeps (slices pointed.now))) }
{
    if one_ends(pointed) {
        return tree.copy(alloc);
    }
    match tree {
        Tree::List(items) => {
            let groups = groups_of(alloc, tree, items.len(), pointed)?;
            let part = part_of_items(alloc, items.as_slice(), groups.as_slice())?;
            Ok(Tree::List(part))
        }
        Tree::Object(members) => {
            let groups = groups_of(alloc, tree, members.len(), pointed)?;
            let part = part_of_members(alloc, members.as_slice(), groups.as_slice())?;
            Ok(Tree::Object(part))
        }
        Tree::Null | Tree::Bool(_) | Tree::Whole(_) | Tree::Version | Tree::Text(_) => {
            tree.copy(alloc)
        }
    }
}

#[cycle(part)]
#[tactic(auto, using(crate::proofs::PartLemmas::making))]
fn part_of_items(
    alloc: Global,
    items: &[Item],
    groups: &[Sequence<&[Step]>],
) -> Result<Items<Item>, Memory>
    requires { list_all (λ i. is_lawful i.value) items.now ≡ true }
    ensures { IfOk result (λ part. part ≡ parts_of item_part (groups_now groups.now) items.now) }
{
    let mut part = Items::new(alloc);
    for k in 0..items.len() {
        let Some(group) = groups.get(k) else {
            return Ok(part);
        };
        if !group.is_empty() {
            let value = part_of(alloc, &items[k].value, group.as_slice())?;
            let at = items[k].at;
            part.push(Item { at, value })?;
        }
    }
    Ok(part)
}

#[cycle(part)]
#[tactic(auto, using(crate::proofs::PartLemmas::making))]
fn part_of_members(
    alloc: Global,
    members: &[Member],
    groups: &[Sequence<&[Step]>],
) -> Result<Items<Member>, Memory>
    requires { list_all (λ m. is_lawful m.value) members.now ≡ true }
    ensures { IfOk result (λ part.
        part ≡ parts_of member_part (groups_now groups.now) members.now) }
{
    let mut part = Items::new(alloc);
    for k in 0..members.len() {
        let Some(group) = groups.get(k) else {
            return Ok(part);
        };
        if is_kept_name(members[k].key.as_str()) {
            let value = members[k].value.copy(alloc)?;
            push_member(alloc, &mut part, &members[k].key, value)?;
        } else if !group.is_empty() {
            let value = part_of(alloc, &members[k].value, group.as_slice())?;
            push_member(alloc, &mut part, &members[k].key, value)?;
        }
    }
    Ok(part)
}

/// Puts a member of that name behind the others.
fn push_member(
    alloc: Global,
    members: &mut Items<Member>,
    key: &Text,
    value: Tree,
) -> Result<(), Memory>
    ensures { OnOk result (members.new ≡ members.old ++ new_member key.now value ∷ []) }
{
    let key = Text::from_str(alloc, key.as_str())?;
    members.push(Member { key, value })?;
    Ok(())
}
