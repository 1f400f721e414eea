//! Trees as canonical JSON text. RFC 8785, 3.2.

ghost use Rattle.std.specs.Prelude.{◌≡◌, ◌≤◌, ◌++◌, [], ◌∷◌, true, false, flat_map, Ok, IfOk, OnOk, IsErrOf};
ghost use Rattle.std.specs.Fmt.{signed_decimal};
ghost use Rattle.std.specs.List.{list_any};
ghost use Rattle.std.specs.Str.{IsUtf8};
ghost use Rattle.json.specs.Lex.{tokens};
ghost use Rattle.json.specs.Print.{print};
ghost use Rattle.json.specs.Token.{begin_array, end_array, begin_object, end_object, number};
ghost use Rattle.json_tree.specs.Reads.{Reads};
ghost use Rattle.json_tree.specs.Trees.{holds_version, nesting_of, nesting_limit, renumbered};
ghost use Rattle.json_tree.specs.WellFormed.{IsWellFormed};
ghost use Rattle.jcs_text.specs.Canonical.{canonical_json, in_name_order};
ghost use Rattle.jcs_text.specs.Internal.Writing.{tokens_of, item_tokens, member_tokens, HasWritten, WritesOrRefuses};

use crate::fault::JcsFault;
use crate::naming::name_order;
use base_types::{Memory, Text};
use json::Writer;
use json_tree::{Item, Member, Tree};
use std::alloc::Global;

/// The canonical JSON text of a tree (RFC 8785): no space, members in the order of their names'
/// UTF-16 code units, texts with the shortest escapes, whole numbers in decimal. The indexes of
/// elements are left out.
///
/// The members of each object are sorted once; the recursion goes as deep as the tree nests.
///
/// # Errors
///
/// `Version` exactly where the tree holds a version number. `Memory`: there is no memory for the text
/// or for the order of members.
pub fn jcs(alloc: Global, tree: &Tree) -> Result<Text, JcsFault>
    ensures text { IfOk result (λ text. text ≡ canonical_json tree.now) }
    ensures whole { IfOk result (λ _. holds_version tree.now ≡ false) }
    ensures version { IsErrOf result JcsFault.Version → holds_version tree.now ≡ true }
    // The text reads as the tree with the elements of each list numbered from 0.
    ensures reads_back { IfOk result (λ text. IsWellFormed tree.now
        → nesting_of tree.now ≤ nesting_limit → Reads text (Ok (renumbered tree.now))) }
{
    let mut out = Writer::new(Vec::new(alloc));
    match write_tree(alloc, &mut out, tree) {
        Ok(()) => Ok(text_in(out)),
        Err(fault) => Err(fault),
    }
}

/// What was written into an empty buffer.
fn text_in(out: Writer) -> Text
    requires { out.before ≡ [] }
    ensures text { result ≡ print out.tokens }
    ensures reads_back { tokens (print out.tokens) ≡ out.tokens }
    ensures utf8 { IsUtf8 (print out.tokens) }
{
    match String::from_utf8(out.into_inner()) {
        Ok(text) => Text::from_string(text),
        Err(_) => unreachable!(),
    }
}

/// A whole number in decimal.
fn write_number(alloc: Global, out: &mut Writer, n: i128) -> Result<(), Memory>
    ensures { OnOk result (HasWritten out.old out.new (number (signed_decimal n) ∷ [])) }
{
    let digits = n.to_string(alloc)?;
    Ok(out.number(digits.as_str())?)
}

#[cycle(write)]
#[tactic(auto, using(crate::proofs::Turns::write_steps))]
fn write_tree(alloc: Global, out: &mut Writer, tree: &Tree) -> Result<(), JcsFault>
    ensures { WritesOrRefuses out.old out.new (tokens_of tree.now) (holds_version tree.now) result }
{
    match tree {
        Tree::Null => Ok(out.null()?),
        Tree::Bool(b) => Ok(out.boolean(*b)?),
        Tree::Whole(n) => Ok(write_number(alloc, out, *n)?),
        Tree::Version => Err(JcsFault::Version),
        Tree::Text(text) => Ok(out.string(text.as_str())?),
        Tree::List(items) => write_items(alloc, out, items.as_slice()),
        Tree::Object(members) => write_members(alloc, out, members.as_slice()),
    }
}

#[cycle(write)]
#[tactic(auto, using(crate::proofs::Turns::write_steps))]
fn write_items(alloc: Global, out: &mut Writer, items: &[Item]) -> Result<(), JcsFault>
    ensures { WritesOrRefuses out.old out.new
        (begin_array ∷ (flat_map item_tokens items.now ++ end_array ∷ []))
        (list_any (λ i. holds_version i.value) items.now) result }
{
    out.begin_array()?;
    for item in items {
        write_tree(alloc, out, &item.value)?;
    }
    Ok(out.end_array()?)
}

#[cycle(write)]
#[tactic(auto, using(crate::proofs::Turns::write_steps))]
fn write_members(alloc: Global, out: &mut Writer, members: &[Member]) -> Result<(), JcsFault>
    ensures { let ordered = in_name_order (λ m. m.key) members.now in
        WritesOrRefuses out.old out.new
        (begin_object ∷ (flat_map member_tokens ordered ++ end_object ∷ []))
        (list_any (λ m. holds_version m.value) members.now) result }
{
    let order = name_order(alloc, members)?;
    out.begin_object()?;
    for at in &order {
        let member = &members[*at];
        out.key(member.key.as_str())?;
        write_tree(alloc, out, &member.value)?;
    }
    Ok(out.end_object()?)
}
