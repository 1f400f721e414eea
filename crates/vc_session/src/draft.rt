//! Documents and proof options with a member whose value is still to come.

ghost use Rattle.std.specs.Prelude.{◌≡◌, ◌≤◌, ◌<◌, List, ℕ, length, reverse, IfOk};
ghost use Rattle.json_tree.specs.declared.tree.Tree.{Tree as AnyTree};
ghost use Rattle.json_tree.specs.Trees.{new_member};
ghost use Rattle.json_tree.specs.Members.{put_member, with_member};
ghost use Rattle.vc_session.specs.Requests.{with_proof};
ghost use Rattle.vc_session.specs.Internal.Drafts.{IsObject, IsPrintable, document_with, is_named, object_with, place_of, with_value_at};

use json_tree::{Items, Member, Text, Tree};
use nquads::Memory;
use std::alloc::Global;
use std::mem;

/// An object with a member whose value is still to come.
#[derive(Drop)]
pub(crate) struct Slot {
    pub members: Vec<Member>,
    /// The index of that member.
    pub at: usize,
}

/// A document with proof options as its proof, whose value is still to come.
#[derive(Drop)]
pub(crate) struct Draft {
    /// The document, without its proof.
    pub document: Slot,
    /// The options, without their value.
    pub options: Slot,
}

/// The members of an object, from the last to the first.
#[tactic(auto, using(crate::proofs::Drafting::turning))]
fn reverse_members(alloc: Global, members: Items<Member>) -> Result<Vec<Member>, Memory>
    ensures { IfOk result (λ turned. turned.items ≡ reverse members) }
{
    let mut rest = members;
    let mut turned = Vec::new(alloc);
    while let Some(member) = rest.pop() {
        turned.push(member)?;
    }
    Ok(turned)
}

/// Where a member of that name stands, or would stand, in the byte order of names.
#[tactic(auto, using(crate::proofs::Drafting::placing))]
fn place_of(members: &[Member], key: &str) -> usize
    ensures value { result ≡ place_of key.now members.now }
    ensures within { result ≤ length members.now }
{
    for at in 0..members.len() {
        let name = members[at].key.as_str();
        if key < name || key == name {
            return at;
        }
    }
    members.len()
}

/// Whether the member at that index is there and has that name.
#[tactic(auto, using(crate::proofs::Drafting::naming))]
fn is_named(members: &[Member], at: usize, key: &str) -> bool
    ensures { result ≡ is_named members.now at key.now }
{
    if at < members.len() {
        return members[at].key.as_str() == key;
    }
    false
}

/// The members, in the order of their names, with one of that name, in place of their own of it.
#[tactic(auto, using(crate::proofs::Drafting::slots))]
fn slot_in(alloc: Global, members: Vec<Member>, key: &str) -> Result<Slot, Memory>
    ensures puts { IfOk result (λ slot. (value : AnyTree)
        → with_value_at slot.members.items slot.at value
        ≡ put_member (new_member key.now value) members.items) }
    ensures within { IfOk result (λ slot. slot.at < length slot.members.items) }
{
    let at = place_of(members.as_slice(), key);
    if is_named(members.as_slice(), at, key) {
        return Ok(Slot { members, at });
    }
    let mut more = members;
    let key = Text::from_str(alloc, key)?;
    more.insert(
        at,
        Member {
            key,
            value: Tree::Null,
        },
    )?;
    Ok(Slot { members: more, at })
}

/// An object with a member of that name, in place of its own of that name if it has one.
#[tactic(auto, using(crate::proofs::Drafting::objects))]
fn slot_for(alloc: Global, object: Tree, key: &str) -> Result<Slot, Memory>
    requires { IsObject object }
    ensures puts { IfOk result (λ slot. (value : AnyTree)
        → object_with slot value ≡ with_member key.now value object) }
    ensures within { IfOk result (λ slot. slot.at < length slot.members.items) }
{
    let Tree::Object(members) = object else {
        unreachable!()
    };
    let turned = reverse_members(alloc, members)?;
    let ordered = reverse_members(alloc, Items::from_vec(turned))?;
    slot_in(alloc, ordered, key)
}

/// Another value for the member at that index. It takes no memory.
#[tactic(auto, using(crate::proofs::Drafting::filling))]
fn put_value(members: &mut Vec<Member>, at: usize, value: Tree)
    requires { at < length members.old.items }
    ensures { members.new.items ≡ with_value_at members.old.items at value }
{
    let old = mem::replace(&mut members[at].value, value);
    drop(old);
}

impl Slot {
    /// The object with this value. It takes no memory.
    fn fill(self, value: Tree) -> Tree
        requires { self.at < length self.members.items }
        ensures { result ≡ object_with self value }
    {
        let Slot { mut members, at } = self;
        put_value(&mut members, at, value);
        Tree::Object(Items::from_vec(members))
    }
}

/// The document with the options as its proof, whose value is still to come.
#[tactic(auto, using(crate::proofs::Drafting::drafts))]
pub(crate) fn draft_of(alloc: Global, document: Tree, options: Tree) -> Result<Draft, Memory>
    requires document { IsObject document × IsPrintable document }
    requires options { IsObject options × IsPrintable options }
    ensures proof { IfOk result (λ draft. (value : List ℕ)
        → document_with draft value ≡ with_proof document options value) }
    // With any value it can be printed.
    ensures printable { IfOk result (λ draft. (value : List ℕ)
        → IsPrintable (document_with draft value)) }
    ensures within { IfOk result (λ draft. (draft.document.at < length draft.document.members.items)
        × (draft.options.at < length draft.options.members.items)) }
{
    Ok(Draft {
        document: slot_for(alloc, document, "proof")?,
        options: slot_for(alloc, options, "proofValue")?,
    })
}

impl Draft {
    /// The document with its proof, with this proof value. It takes no memory.
    pub(crate) fn finish(self, value: Text) -> Tree
        requires document { self.document.at < length self.document.members.items }
        requires options { self.options.at < length self.options.members.items }
        ensures { result ≡ document_with self value }
    {
        let Draft { document, options } = self;
        document.fill(options.fill(Tree::Text(value)))
    }
}
