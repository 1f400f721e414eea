//! The blank nodes that statements mention, by their numbers.

ghost use Rattle.std.specs.Prelude.{◌≡◌, ◌<◌, ◌++◌, All, IfOk, OnOk, length};
ghost use Rattle.base_types.specs.Sets.{AllDiffer, SameElements};
ghost use Rattle.nquads.specs.Stored.{IsKnown};
ghost use Rattle.nquads.specs.Internal.Storing.{blank_id, blank_ids, quad_blank_ids};

use base_types::Memory;
use std::alloc::Global;
use term_store::{Quad, TermId, Terms};

/// Puts the number at the end, where it stands for a blank node.
fn push_id(terms: &Terms<'_>, ids: &mut Vec<u32>, id: TermId) -> Result<(), Memory>
    requires { id.index < length terms.now }
    ensures { OnOk result (ids.new.items ≡ ids.old.items ++ blank_id terms.now id) }
{
    if terms.is_blank(id) {
        ids.push(id.index)?;
    }
    Ok(())
}

/// Puts the numbers of a statement's blank nodes at the end.
fn push_quad(terms: &Terms<'_>, ids: &mut Vec<u32>, quad: &Quad) -> Result<(), Memory>
    requires { IsKnown terms.now quad.now }
    ensures { OnOk result (ids.new.items ≡ ids.old.items ++ quad_blank_ids terms.now quad.now) }
{
    push_id(terms, ids, quad.subject)?;
    push_id(terms, ids, quad.object)?;
    if let Some(graph) = quad.graph {
        push_id(terms, ids, graph)?;
    }
    Ok(())
}

/// The numbers of the blank nodes, as often as they are mentioned.
fn mentioned(alloc: Global, terms: &Terms<'_>, quads: &[Quad]) -> Result<Vec<u32>, Memory>
    requires { All (IsKnown terms.now) quads.now }
    ensures { IfOk result (λ ids. ids.items ≡ blank_ids terms.now quads.now) }
{
    let mut ids = Vec::new(alloc);
    for quad in quads {
        push_quad(terms, &mut ids, quad)?;
    }
    Ok(ids)
}

/// The same numbers, each once.
fn each_once(ids: Vec<u32>) -> Vec<u32>
    ensures same { SameElements result.items ids.items }
    ensures differ { AllDiffer result.items }
{
    let mut ids = ids;
    ids.sort_unstable();
    ids.dedup();
    ids
}

/// The numbers of the blank nodes that the statements mention, each once.
pub(crate) fn blank_ids(
    alloc: Global,
    terms: &Terms<'_>,
    quads: &[Quad],
) -> Result<Vec<u32>, Memory>
    requires { All (IsKnown terms.now) quads.now }
    ensures same { IfOk result (λ ids. SameElements ids.items (blank_ids terms.now quads.now)) }
    ensures differ { IfOk result (λ ids. AllDiffer ids.items) }
{
    let ids = mentioned(alloc, terms, quads)?;
    Ok(each_once(ids))
}
