//! Trees copied.

ghost use Rattle.std.specs.Prelude.{◌≡◌, IfOk};

use crate::tree::{Item, Member, Tree};
use base_types::{Items, Memory, Text};
use std::alloc::Global;

impl Tree {
    /// The same tree once more, its indexes as they are.
    ///
    /// # Errors
    ///
    /// `Memory`: there is no memory for the copy.
    pub fn copy(&self, alloc: Global) -> Result<Tree, Memory>
        ensures { IfOk result (λ t. t ≡ self.now) }
    {
        let tree = copy_tree(alloc, self)?;
        Ok(tree)
    }
}

#[cycle(copy)]
fn copy_tree(alloc: Global, tree: &Tree) -> Result<Tree, Memory>
    ensures { IfOk result (λ t. t ≡ tree.now) }
{
    match tree {
        Tree::Null => Ok(Tree::Null),
        Tree::Bool(b) => Ok(Tree::Bool(*b)),
        Tree::Whole(n) => Ok(Tree::Whole(*n)),
        Tree::Version => Ok(Tree::Version),
        Tree::Text(text) => Ok(Tree::Text(Text::from_str(alloc, text.as_str())?)),
        Tree::List(items) => Ok(Tree::List(copy_items(alloc, items.as_slice())?)),
        Tree::Object(members) => Ok(Tree::Object(copy_members(alloc, members.as_slice())?)),
    }
}

#[cycle(copy)]
fn copy_items(alloc: Global, items: &[Item]) -> Result<Items<Item>, Memory>
    ensures { IfOk result (λ copies. copies ≡ items.now) }
{
    let mut copies = Items::new(alloc);
    for item in items {
        let value = copy_tree(alloc, &item.value)?;
        copies.push(Item { at: item.at, value })?;
    }
    Ok(copies)
}

#[cycle(copy)]
fn copy_members(alloc: Global, members: &[Member]) -> Result<Items<Member>, Memory>
    ensures { IfOk result (λ copies. copies ≡ members.now) }
{
    let mut copies = Items::new(alloc);
    for member in members {
        let key = Text::from_str(alloc, member.key.as_str())?;
        let value = copy_tree(alloc, &member.value)?;
        copies.push(Member { key, value })?;
    }
    Ok(copies)
}
