//! Objects with a member put in or taken out.

ghost use Rattle.std.specs.Prelude.{◌≡◌, ◌≤◌, ◌++◌, ◌∷◌, true, None, IfOk, drop, length, take};
ghost use Rattle.json_tree.specs.Trees.{each_next, is_before, is_lawful};
ghost use Rattle.json_tree.specs.Places.{misplaced, is_version_key};
ghost use Rattle.json_tree.specs.Members.{without, without_key, with_member, put_member};
ghost use Rattle.json_tree.specs.WellFormed.{IsWellFormed};

use crate::tree::{Member, Tree};
use base_types::{Items, Memory, Text, search_by_key};
use std::alloc::Global;

impl Tree {
    /// An object without its member of that name; any other tree as it is. It takes no memory.
    pub fn without(self, key: &str) -> Tree
        requires { is_lawful self ≡ true }
        ensures value { result ≡ without key.now self }
        ensures well_formed { IsWellFormed self → IsWellFormed result }
    {
        match self {
            Tree::Object(members) => Tree::Object(taken_out(members, key)),
            other => other,
        }
    }

    /// An object with a member of that name and value, in place of its own of that name; any other
    /// tree as it is.
    ///
    /// # Errors
    ///
    /// `Memory`: there is no memory for one more member.
    pub fn with_member(self, alloc: Global, key: Text, value: Tree) -> Result<Tree, Memory>
        requires { is_lawful self ≡ true }
        ensures value { IfOk result (λ t. t ≡ with_member key value self) }
        ensures well_formed { IsWellFormed self → IsWellFormed value
            → misplaced value (is_version_key key) ≡ None → IfOk result (λ t. IsWellFormed t) }
    {
        match self {
            Tree::Object(members) => {
                let all = put_in(alloc, members, Member { key, value })?;
                Ok(Tree::Object(all))
            }
            other => Ok(other),
        }
    }
}

/// The members without that of that name.
fn taken_out(members: Items<Member>, key: &str) -> Items<Member>
    requires { each_next (λ m n. is_before m.key n.key) members ≡ true }
    ensures { result ≡ without_key key.now members }
{
    let mut rest = members;
    match search_by_key(rest.as_slice(), key) {
        Ok(at) => {
            drop(rest.remove(at));
            rest
        }
        Err(_) => rest,
    }
}

/// The members with one more, at its place, or with it in place of one of its name.
fn put_in(alloc: Global, members: Items<Member>, member: Member) -> Result<Items<Member>, Memory>
    requires { each_next (λ m n. is_before m.key n.key) members ≡ true }
    ensures { IfOk result (λ ms. ms ≡ put_member member members) }
{
    let mut all = members;
    match search_by_key(all.as_slice(), member.key.as_str()) {
        Ok(at) => {
            all.set(at, member);
            Ok(all)
        }
        Err(at) => insert(alloc, all, at, member),
    }
}

/// The members with one more at that index.
fn insert(
    alloc: Global,
    members: Items<Member>,
    at: usize,
    member: Member,
) -> Result<Items<Member>, Memory>
    requires { at ≤ length members }
    ensures { IfOk result (λ ms. ms ≡ take at members ++ member ∷ drop at members) }
{
    let mut all = members;
    let mut later = Items::new(alloc);
    while all.len() > at {
        match all.pop() {
            Some(last) => later.push(last)?,
            None => return Ok(all),
        }
    }
    all.push(member)?;
    while let Some(next) = later.pop() {
        all.push(next)?;
    }
    Ok(all)
}
