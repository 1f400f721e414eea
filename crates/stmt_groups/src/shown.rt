//! The text of a statement in which each blank node is `_:x`.

ghost use Rattle.std.specs.Prelude.{◌≡◌, ◌<◌, ◌++◌, [], IfOk, IfSome, length};
ghost use Rattle.nquads.specs.Stored.{IsKnown};
ghost use Rattle.stmt_groups.specs.Internal.Shown.{shown_graph, shown_part, shown_text};

use base_types::{Memory, Text};
use std::alloc::Global;
use term_store::{Quad, TermId, Terms};

/// The line of a statement without its LF, in which each blank node is `_:x`, with room for all of
/// its bytes from the first.
pub fn shown_text(alloc: Global, terms: &Terms<'_>, quad: &Quad) -> Result<Text, Memory>
    requires { IsKnown terms.now quad.now }
    ensures { IfOk result (λ t. t ≡ shown_text terms.now quad.now) }
{
    let subject = shown_part(terms, quad.subject);
    let predicate = terms.text(quad.predicate);
    let object = shown_part(terms, quad.object);
    let (graph, space) = shown_graph(terms, quad.graph);
    let mut out = empty_text(alloc, room_for(subject, predicate, object, graph))?;
    out.push_str(subject)?;
    out.push_str(" ")?;
    out.push_str(predicate)?;
    out.push_str(" ")?;
    out.push_str(object)?;
    out.push_str(" ")?;
    out.push_str(graph)?;
    out.push_str(space)?;
    out.push_str(".")?;
    Ok(out)
}

/// The number of bytes of the text: the parts, the space behind each, and a dot.
fn room_for(subject: &str, predicate: &str, object: &str, graph: &str) -> usize {
    subject
        .len()
        .saturating_add(predicate.len())
        .saturating_add(object.len())
        .saturating_add(graph.len())
        .saturating_add(5)
}

/// An empty text with room for so many bytes.
fn empty_text(alloc: Global, bytes: usize) -> Result<Text, Memory>
    ensures { IfOk result (λ t. t ≡ []) }
{
    Ok(Text::from_string(String::with_capacity(alloc, bytes)?))
}

/// The graph and the space behind it, both empty for the default graph.
fn shown_graph<'t>(terms: &Terms<'t>, graph: Option<TermId>) -> (&'t str, &'t str)
    requires { IfSome graph (λ g. g.index < length terms.now) }
    ensures { result.0.now ++ result.1.now ≡ shown_graph terms.now graph }
{
    match graph {
        Some(graph) => (shown_part(terms, graph), " "),
        None => ("", ""),
    }
}

/// `_:x` for a blank node, and any other part as it is kept.
fn shown_part<'t>(terms: &Terms<'t>, part: TermId) -> &'t str
    requires { part.index < length terms.now }
    ensures { result.now ≡ shown_part terms.now part }
{
    if terms.is_blank(part) {
        return "_:x";
    }
    terms.text(part)
}
