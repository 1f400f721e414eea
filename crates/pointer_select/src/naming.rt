//! The places that pointers name in a tree. RFC 6901, section 4.
ghost use Rattle.std.specs.Prelude.{◌≡◌, ℕ, length, map, true, Some, Err, option_map, IfOk, IfSome};
ghost use Rattle.std.specs.Option.{option_copied};
ghost use Rattle.json_tree.specs.Places.{child_of};
ghost use Rattle.json_tree.specs.Trees.{is_lawful};
ghost use Rattle.pointer_select.specs.declared.fault.SelectFault.TheVariants.{Missing};
ghost use Rattle.pointer_select.specs.Naming.{element_from, step_of, place_of, first_missing};
ghost use Rattle.pointer_select.specs.Internal.Reading.{IsIndex};

use crate::fault::SelectFault;
use crate::pointer::Pointer;
use base_types::{Memory, Text};
use json_tree::{Item, Place, Step, Tree, member};
use std::alloc::Global;

/// A step down, and what stands there.
#[derive(Drop)]
struct Child<'a> {
    step: Step,
    value: &'a Tree,
}

/// The index that the token is in decimal, without leading zeros.
fn index_of(alloc: Global, token: &str) -> Result<Option<usize>, Memory>
    ensures { IfOk result (λ found. IsIndex token.now found) }
{
    let Ok(index) = token.parse::<usize>() else {
        return Ok(None);
    };
    let digits = index.to_string(alloc)?;
    if digits.as_str() == token {
        Ok(Some(index))
    } else {
        Ok(None)
    }
}

/// The element that stands there now, of as many.
fn element_named<'a>(
    alloc: Global,
    items: &'a [Item],
    count: usize,
    token: &str,
) -> Result<Option<&'a Item>, Memory>
    requires { count ≡ length items.now }
    ensures { IfOk result (λ found. option_copied found ≡ element_from 0 token.now items.now) }
{
    match index_of(alloc, token)? {
        Some(index) => {
            if index < count {
                Ok(Some(&items[index]))
            } else {
                Ok(None)
            }
        }
        None => Ok(None),
    }
}

/// The step that a token names, and what stands there.
#[tactic(auto, using(crate::proofs::Names::named))]
fn child_named<'a>(alloc: Global, tree: &'a Tree, token: &str) -> Result<Option<Child<'a>>, Memory>
    requires { is_lawful tree.now ≡ true }
    ensures step { IfOk result (λ found.
        option_map (λ c. c.step) found ≡ step_of tree.now token.now) }
    ensures there { IfOk result (λ found.
        IfSome found (λ c. child_of tree.now c.step ≡ Some c.value.now)) }
{
    match tree {
        Tree::Object(members) => match member(members.as_slice(), token) {
            Some(value) => {
                let step = Step::Key(Text::from_str(alloc, token)?);
                Ok(Some(Child { step, value }))
            }
            None => Ok(None),
        },
        Tree::List(items) => {
            let items = items.as_slice();
            match element_named(alloc, items, items.len(), token)? {
                Some(item) => {
                    let step = Step::At(item.at);
                    let value = &item.value;
                    Ok(Some(Child { step, value }))
                }
                None => Ok(None),
            }
        }
        _ => Ok(None),
    }
}

/// The place that a pointer names.
#[tactic(auto, using(crate::proofs::Names::walked))]
fn place_of(alloc: Global, tree: &Tree, pointer: &Pointer) -> Result<Option<Place>, Memory>
    requires { is_lawful tree.now ≡ true }
    ensures { IfOk result (λ found.
        option_map (λ place. place.steps) found ≡ place_of pointer.now tree.now) }
{
    let mut place = Place::root(alloc);
    let mut here = tree;
    for token in pointer.steps() {
        match child_named(alloc, here, token.as_str())? {
            Some(child) => {
                place.push(child.step)?;
                here = child.value;
            }
            None => return Ok(None),
        }
    }
    Ok(Some(place))
}

/// The places that the pointers name, or the first that names none.
#[tactic(auto, using(crate::proofs::Names::missing_first))]
pub(crate) fn places_of(
    alloc: Global,
    tree: &Tree,
    pointers: &[Pointer],
) -> Result<Vec<Place>, SelectFault>
    requires { is_lawful tree.now ≡ true }
    ensures ok { IfOk result (λ places.
        map (λ tokens. place_of tokens tree.now) pointers.now
        ≡ map Some (map (λ place. place.steps) places.items)) }
    ensures missing { (index : ℕ) → result ≡ Err (Missing index)
        → first_missing pointers.now tree.now ≡ Some index }
{
    let mut places = Vec::new(alloc);
    for index in 0..pointers.len() {
        match place_of(alloc, tree, &pointers[index])? {
            Some(place) => places.push(place)?,
            None => return Err(SelectFault::Missing(index as u64)),
        }
    }
    Ok(places)
}
