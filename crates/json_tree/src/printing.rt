//! Trees as compact JSON text. RFC 8259.

ghost use Rattle.std.specs.Prelude.{◌≡◌, ◌≤◌, [], ◌∷◌, true, false, map, Ok, IfOk, OnOk};
ghost use Rattle.std.specs.Fmt.{signed_decimal};
ghost use Rattle.std.specs.List.{list_all};
ghost use Rattle.json.specs.Token.{begin_array, begin_object, number};
ghost use Rattle.json.specs.Tree.{json_tokens, items_tokens, members_tokens};
ghost use Rattle.serde_json.specs.Written.{compact_text};
ghost use Rattle.json_tree.specs.Trees.{is_in_range, is_64_bits, holds_version, nesting_of, nesting_limit, renumbered};
ghost use Rattle.json_tree.specs.Places.{is_placed};
ghost use Rattle.json_tree.specs.WellFormed.{IsWellFormed};
ghost use Rattle.json_tree.specs.Prints.{data_of, json_of, json_items, json_members, compact_of};
ghost use Rattle.json_tree.specs.Reads.{Reads};
ghost use Rattle.json_tree.specs.Internal.Writes.{HasWritten, item_json, member_json};

use crate::tree::{Item, Member, Tree};
use base_types::Memory;
use json::Writer;
use std::alloc::Global;

/// The one number of a tree that need not be whole: the version number of a context.
pub const VERSION: f64 = 1.1;

/// The tree as compact JSON (RFC 8259): no space, members in the byte order of their names, texts with
/// the shortest escapes, whole numbers in decimal, `Version` as `1.1`. The indexes of elements are left
/// out.
///
/// What `read` gives is well formed. The recursion goes as deep as the tree nests.
///
/// # Errors
///
/// `Memory`: there is no memory for the text.
pub fn print(alloc: Global, tree: &Tree) -> Result<Vec<u8>, Memory>
    requires { IsWellFormed tree.now }
    ensures compact { IfOk result (λ text. text.items ≡ compact_of tree.now) }
    // Where it holds no version number, this is what `serde_json` writes.
    ensures text { IfOk result (λ text. holds_version tree.now ≡ false
        → text.items ≡ compact_text (data_of tree.now)) }
    // The text reads as the tree with the elements of each list numbered from 0.
    ensures reads_back { IfOk result (λ text. nesting_of tree.now ≤ nesting_limit
        → is_placed tree.now ≡ true → Reads text.items (Ok (renumbered tree.now))) }
{
    let mut out = Writer::new(Vec::new(alloc));
    write_tree(&mut out, tree)?;
    Ok(out.into_inner())
}

/// A whole number of 64 bits, with a sign or without.
fn write_number(out: &mut Writer, n: i128) -> Result<(), Memory>
    requires { is_64_bits n ≡ true }
    ensures { OnOk result (HasWritten out.old out.new (number (signed_decimal n) ∷ [])) }
{
    if n < 0 {
        Ok(out.i64(n as i64)?)
    } else {
        Ok(out.u64(n as u64)?)
    }
}

#[cycle(write)]
#[tactic(auto, using(crate::proofs::Writing::print_steps))]
fn write_tree(out: &mut Writer, tree: &Tree) -> Result<(), Memory>
    requires { is_in_range tree.now ≡ true }
    ensures { OnOk result (HasWritten out.old out.new (json_tokens (json_of tree.now))) }
{
    match tree {
        Tree::Null => Ok(out.null()?),
        Tree::Bool(b) => Ok(out.boolean(*b)?),
        Tree::Whole(n) => write_number(out, *n),
        Tree::Version => Ok(out.number("1.1")?),
        Tree::Text(text) => Ok(out.string(text.as_str())?),
        Tree::List(items) => write_items(out, items.as_slice()),
        Tree::Object(members) => write_members(out, members.as_slice()),
    }
}

#[cycle(write)]
#[tactic(auto, using(crate::proofs::Writing::print_steps))]
fn write_items(out: &mut Writer, items: &[Item]) -> Result<(), Memory>
    requires { list_all (λ i. is_in_range i.value) items.now ≡ true }
    ensures { OnOk result (HasWritten out.old out.new
        (begin_array ∷ items_tokens (json_items (map item_json items.now)))) }
{
    out.begin_array()?;
    for item in items {
        write_tree(out, &item.value)?;
    }
    Ok(out.end_array()?)
}

#[cycle(write)]
#[tactic(auto, using(crate::proofs::Writing::print_steps))]
fn write_members(out: &mut Writer, members: &[Member]) -> Result<(), Memory>
    requires { list_all (λ m. is_in_range m.value) members.now ≡ true }
    ensures { OnOk result (HasWritten out.old out.new
        (begin_object ∷ members_tokens (json_members (map member_json members.now)))) }
{
    out.begin_object()?;
    for member in members {
        out.key(member.key.as_str())?;
        write_tree(out, &member.value)?;
    }
    Ok(out.end_object()?)
}
