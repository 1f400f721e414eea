//! Which statements are out of place, and the least of their texts.

ghost use Rattle.std.specs.Prelude.{◌≡◌, ◌↔◌, ◌⊎◌, All, Contains, IfOk, OnOk, map};
ghost use Rattle.term_store.specs.declared.statements.Quad.{Quad};
ghost use Rattle.nquads.specs.Stored.{IsKnown};
ghost use Rattle.stmt_groups.specs.Parts.{IsMissing};
ghost use Rattle.stmt_groups.specs.Internal.Marking.{Gains, IsLeastOf, lesser_of};
ghost use Rattle.stmt_groups.specs.Internal.Shown.{shown_text};

use crate::quad_sets::QuadSet;
use crate::shown::shown_text;
use base_types::{Memory, Text};
use std::alloc::Global;
use term_store::{Quad, Terms};

/// The statements that are out of place, each as often as it is.
pub fn all_strays(
    alloc: Global,
    mandatory: &[Quad],
    chosen: &[Quad],
    in_whole: &QuadSet,
    in_chosen: &QuadSet,
) -> Result<Vec<Quad>, Memory>
    ensures { IfOk result (λ v. (q : Quad) → Contains v.items q
        ↔ (IsMissing mandatory.now in_whole.now q
        ⊎ (IsMissing chosen.now in_whole.now q ⊎ IsMissing mandatory.now in_chosen.now q))) }
{
    let mut strays = Vec::new(alloc);
    push_all_missing(&mut strays, mandatory, in_whole)?;
    push_all_missing(&mut strays, chosen, in_whole)?;
    push_all_missing(&mut strays, mandatory, in_chosen)?;
    Ok(strays)
}

/// Puts each statement of the part at the end that the set has not.
fn push_all_missing(strays: &mut Vec<Quad>, part: &[Quad], set: &QuadSet) -> Result<(), Memory>
    ensures { OnOk result
        (Gains strays.old.items strays.new.items (IsMissing part.now set.now)) }
{
    for quad in part {
        push_missing(strays, quad, set)?;
    }
    Ok(())
}

/// Puts the statement at the end, if the set has it not.
fn push_missing(strays: &mut Vec<Quad>, quad: &Quad, set: &QuadSet) -> Result<(), Memory>
    ensures { OnOk result (Gains strays.old.items strays.new.items
        (λ q. (quad.now ≡ q) × (Contains set.now q → ⊥))) }
{
    if set.has(quad) {
        return Ok(());
    }
    strays.push(*quad)?;
    Ok(())
}

/// The least of the texts of these statements, or nothing where there is no statement.
pub fn least_text(alloc: Global, terms: &Terms<'_>, quads: &[Quad]) -> Result<Option<Text>, Memory>
    requires { All (IsKnown terms.now) quads.now }
    ensures { IfOk result (IsLeastOf (map (shown_text terms.now) quads.now)) }
{
    let mut least: Option<Text> = None;
    for quad in quads {
        let text = shown_text(alloc, terms, quad)?;
        least = Some(lesser(least, text));
    }
    Ok(least)
}

/// The lesser of a text and one that was kept, where one was.
fn lesser(least: Option<Text>, text: Text) -> Text
    ensures { result ≡ lesser_of least text }
{
    match least {
        Some(kept) => kept.min(text),
        None => text,
    }
}
