//! Reading JSON text as a tree. RFC 8259.

ghost use Rattle.std.specs.Prelude.{◌≡◌, [], true, IfOk};
ghost use Rattle.serde_json.specs.Data.{number as as_number};
ghost use Rattle.serde_json.specs.View.{view, number_view, items_view, members_view};
ghost use Rattle.json_tree.specs.Trees.{tree_of, is_lawful, is_in_range};
ghost use Rattle.json_tree.specs.Places.{is_placed};
ghost use Rattle.json_tree.specs.WellFormed.{IsWellFormed};
ghost use Rattle.json_tree.specs.Reads.{Reads};
ghost use Rattle.json_tree.specs.Internal.Reading.{ReadsTree, IsTreeOf, AreElementsOf, AreEntriesOf};

use crate::misplaced::first_misplaced;
use crate::nesting::is_within;
use crate::tree::{Item, Member, Tree, TreeFault};
use base_types::{Items, Memory, Text};
use serde_json::{Map, Number, Value};
use std::alloc::Global;

/// The deepest nesting that is read.
const NESTING_LIMIT: u64 = 100;

/// The tree that a JSON text spells. RFC 8259.
///
/// Elements of a list are numbered from 0, members of an object stand in the byte order of their
/// names, and of members with one name the last counts. A number is whole where it is spelled without
/// fraction and exponent, is not `-0`, and lies from -2^63 to 2^64 - 1. One that is not is read as the
/// value of a member `@version` alone, as `Version`.
///
/// # Errors
///
/// - `NotJson` where the bytes are not UTF-8 or no JSON text, which is so past a nesting of 127 too.
/// - `TooDeep` where the text nests more than 100 deep; the root has nesting 1.
/// - `NotWhole` with the first place of a number that is not whole: elements in their order, members
///   in the byte order of their names.
pub fn read(alloc: Global, bytes: &[u8]) -> Result<Tree, TreeFault>
    ensures outcome { Reads bytes.now result }
    ensures lawful { IfOk result (λ t. is_lawful t ≡ true) }
    ensures in_range { IfOk result (λ t. is_in_range t ≡ true) }
    ensures placed { IfOk result (λ t. is_placed t ≡ true) }
    ensures well_formed { IfOk result (λ t. IsWellFormed t) }
{
    match Value::from_slice(alloc, bytes) {
        Ok(value) => read_value(alloc, value),
        Err(error) => {
            if error.is_memory() {
                Err(TreeFault::Memory)
            } else {
                Err(TreeFault::NotJson)
            }
        }
    }
}

/// The tree of a value, where it is one that is read. The nesting comes first, so no later step goes
/// deeper.
fn read_value(alloc: Global, value: Value) -> Result<Tree, TreeFault>
    ensures outcome { ReadsTree (tree_of (view value)) result }
    ensures lawful { IfOk result (λ t. is_lawful t ≡ true) }
    ensures in_range { IfOk result (λ t. is_in_range t ≡ true) }
{
    if !is_within(&value, NESTING_LIMIT) {
        return Err(TreeFault::TooDeep);
    }
    let tree = tree_from(alloc, value)?;
    match first_misplaced(alloc, &tree)? {
        Some(place) => Err(TreeFault::NotWhole(place)),
        None => Ok(tree),
    }
}

/// A whole number where the reader has an integer of 64 bits, and otherwise a version number.
fn number_from(number: &Number) -> Tree
    ensures { IsTreeOf (as_number (number_view number.now)) result }
{
    if let Some(n) = number.as_u64() {
        return Tree::Whole(i128::from(n));
    }
    match number.as_i64() {
        Some(n) => Tree::Whole(i128::from(n)),
        None => Tree::Version,
    }
}

/// No items yet, with room for so many.
fn room_for<T>(alloc: Global, items: usize) -> Result<Items<T>, Memory>
    ensures { IfOk result (λ them. them ≡ []) }
{
    Ok(Items::from_vec(Vec::with_capacity(alloc, items)?))
}

#[cycle(tree_from)]
fn tree_from(alloc: Global, value: Value) -> Result<Tree, Memory>
    ensures { IfOk result (IsTreeOf (view value)) }
{
    match value {
        Value::Null => Ok(Tree::Null),
        Value::Bool(b) => Ok(Tree::Bool(b)),
        Value::Number(number) => Ok(number_from(&number)),
        Value::String(text) => Ok(Tree::Text(Text::from_string(text))),
        Value::Array(items) => Ok(Tree::List(elements_from(alloc, items)?)),
        Value::Object(members) => Ok(Tree::Object(members_from(alloc, members)?)),
    }
}

#[cycle(tree_from)]
fn elements_from(alloc: Global, values: Vec<Value>) -> Result<Items<Item<Tree>>, Memory>
    ensures { IfOk result (AreElementsOf (items_view values.items)) }
{
    let mut elements = room_for(alloc, values.len())?;
    let mut at = 0;
    for item in values {
        let value = tree_from(alloc, item)?;
        elements.push(Item { at, value })?;
        at += 1;
    }
    Ok(elements)
}

#[cycle(tree_from)]
fn members_from(alloc: Global, map: Map<String, Value>) -> Result<Items<Member<Tree>>, Memory>
    ensures { IfOk result (AreEntriesOf (members_view map.entries)) }
{
    let mut members = room_for(alloc, map.len())?;
    for (name, member) in map {
        let key = Text::from_string(name);
        let value = tree_from(alloc, member)?;
        members.push(Member { key, value })?;
    }
    Ok(members)
}
