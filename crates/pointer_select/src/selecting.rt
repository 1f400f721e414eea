//! The part of a tree that pointers select.
ghost use Rattle.std.specs.Prelude.{◌≡◌, ◌≤◌, true, map, IfOk, IfSome};
ghost use Rattle.json_tree.specs.Places.{is_placed};
ghost use Rattle.json_tree.specs.Trees.{is_lawful, nesting_of};
ghost use Rattle.json_tree.specs.WellFormed.{IsWellFormed};
ghost use Rattle.pointer_select.specs.Selection.{Selects};
ghost use Rattle.pointer_select.specs.Internal.Parts.{slices};

use crate::fault::SelectFault;
use crate::naming::places_of;
use crate::parting::part_of;
use crate::pointer::Pointer;
use base_types::Memory;
use json_tree::{Place, Step, Tree};
use std::alloc::Global;

/// The part of the tree that the pointers select; none where there are no pointers.
///
/// It has each place above, at or below one that a pointer names, and each member named `id`, `type`,
/// `@id`, `@type` or `@context` of an object above or at one, whole. A token names the member of that
/// name, or the element that stands at that decimal index now (RFC 6901, section 4). Elements keep the
/// index that they had when the list was read. The document is walked once, whatever the number of
/// pointers, and the recursion goes as deep as the tree nests.
///
/// # Errors
///
/// `Missing`: this pointer names no place, and is the first that names none. `Memory`: there is no
/// memory for the part.
pub fn select(alloc: Global, tree: &Tree, pointers: &[Pointer]) -> Result<Option<Tree>, SelectFault>
    requires { is_lawful tree.now ≡ true }
    ensures outcome { Selects pointers.now tree.now result }
    ensures well_formed { IsWellFormed tree.now
        → IfOk result (λ found. IfSome found (λ part. IsWellFormed part)) }
    ensures placed { is_placed tree.now ≡ true
        → IfOk result (λ found. IfSome found (λ part. is_placed part ≡ true)) }
    ensures nesting { IfOk result (λ found.
        IfSome found (λ part. nesting_of part ≤ nesting_of tree.now)) }
{
    if pointers.is_empty() {
        return Ok(None);
    }
    let places = places_of(alloc, tree, pointers)?;
    let pointed = slices_of(alloc, places.as_slice())?;
    let part = part_of(alloc, tree, pointed.as_slice())?;
    Ok(Some(part))
}

/// The steps of each place.
fn slices_of(alloc: Global, places: &[Place]) -> Result<Vec<&[Step]>, Memory>
    ensures { IfOk result (λ all. slices all.items ≡ map (λ place. place.steps) places.now) }
{
    let mut all = Vec::new(alloc);
    for place in places {
        all.push(place.steps.as_slice())?;
    }
    Ok(all)
}
