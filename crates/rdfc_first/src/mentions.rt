//! The lines of each blank node's mentions (RDF Dataset Canonicalization, 4.4.3, step 2, and 4.6.3).

ghost use Rattle.std.specs.Prelude.{◌≡◌, ◌<◌, ◌++◌, [], All, IfOk, IfSome, OnOk, length};
ghost use Rattle.std.specs.List.{flat_map};
ghost use Rattle.nquads.specs.Stored.{IsKnown};
ghost use Rattle.rdfc_first.specs.Internal.Mentions.{
  graph_lines,
  line_at,
  marked_graph,
  marked_line,
  marked_part,
  mention_lines,
  object_lines,
};

use base_types::{Memory, Text};
use std::alloc::Global;
use term_store::{Quad, TermId, Terms};

/// The line of a statement that mentions `blank`, with the marks of this blank node. They are ordered
/// by the number of the blank node, and those of one by their texts.
#[derive(Debug, Drop, PartialEq, Eq, PartialOrd, Ord)]
pub struct MentionLine {
    pub blank: TermId,
    pub line: Text,
}

/// The lines of all statements, one for each blank node that a statement mentions, however often it does.
pub fn mention_lines(
    alloc: Global,
    terms: &Terms<'_>,
    quads: &[Quad],
) -> Result<Vec<MentionLine>, Memory>
    requires { All (IsKnown terms.now) quads.now }
    ensures { IfOk result (λ lines. lines.items ≡ flat_map (mention_lines terms.now) quads.now) }
{
    let mut lines = Vec::new(alloc);
    for quad in quads {
        push_mentions(alloc, terms, &mut lines, quad)?;
    }
    Ok(lines)
}

fn push_mentions(
    alloc: Global,
    terms: &Terms<'_>,
    lines: &mut Vec<MentionLine>,
    quad: &Quad,
) -> Result<(), Memory>
    requires { IsKnown terms.now quad.now }
    ensures { OnOk result
        (lines.new.items ≡ lines.old.items ++ mention_lines terms.now quad.now) }
{
    push_line(alloc, terms, lines, quad, quad.subject)?;
    push_object(alloc, terms, lines, quad)?;
    push_graph(alloc, terms, lines, quad)?;
    Ok(())
}

fn push_object(
    alloc: Global,
    terms: &Terms<'_>,
    lines: &mut Vec<MentionLine>,
    quad: &Quad,
) -> Result<(), Memory>
    requires { IsKnown terms.now quad.now }
    ensures { OnOk result
        (lines.new.items ≡ lines.old.items ++ object_lines terms.now quad.now) }
{
    if quad.subject == quad.object {
        return Ok(());
    }
    push_line(alloc, terms, lines, quad, quad.object)
}

fn push_graph(
    alloc: Global,
    terms: &Terms<'_>,
    lines: &mut Vec<MentionLine>,
    quad: &Quad,
) -> Result<(), Memory>
    requires { IsKnown terms.now quad.now }
    ensures { OnOk result
        (lines.new.items ≡ lines.old.items ++ graph_lines terms.now quad.now quad.now.graph) }
{
    let Some(graph) = quad.graph else {
        return Ok(());
    };
    if quad.subject == graph || quad.object == graph {
        return Ok(());
    }
    push_line(alloc, terms, lines, quad, graph)
}

/// The line as this part of the statement sees it, where the part is a blank node.
fn push_line(
    alloc: Global,
    terms: &Terms<'_>,
    lines: &mut Vec<MentionLine>,
    quad: &Quad,
    part: TermId,
) -> Result<(), Memory>
    requires known { IsKnown terms.now quad.now }
    requires part { part.index < length terms.now }
    ensures { OnOk result
        (lines.new.items ≡ lines.old.items ++ line_at terms.now quad.now part) }
{
    if terms.is_blank(part) {
        let line = marked_line(alloc, terms, quad, part)?;
        lines.push(MentionLine { blank: part, line })?;
    }
    Ok(())
}

/// The line of a statement, marked for one blank node, with room for all of its bytes from the first.
fn marked_line(alloc: Global, terms: &Terms<'_>, quad: &Quad, blank: TermId) -> Result<Text, Memory>
    requires { IsKnown terms.now quad.now }
    ensures { IfOk result (λ t. t ≡ marked_line terms.now quad.now blank) }
{
    let subject = marked_part(terms, blank, quad.subject);
    let predicate = terms.text(quad.predicate);
    let object = marked_part(terms, blank, quad.object);
    let (graph, space) = marked_graph(terms, blank, quad.graph);
    let mut out = empty_text(alloc, room_for(subject, predicate, object, graph))?;
    out.push_str(subject)?;
    out.push_str(" ")?;
    out.push_str(predicate)?;
    out.push_str(" ")?;
    out.push_str(object)?;
    out.push_str(" ")?;
    out.push_str(graph)?;
    out.push_str(space)?;
    out.push_str(".\n")?;
    Ok(out)
}

/// The number of bytes of the line: the parts, the space behind each, a dot and LF.
fn room_for(subject: &str, predicate: &str, object: &str, graph: &str) -> usize {
    subject
        .len()
        .saturating_add(predicate.len())
        .saturating_add(object.len())
        .saturating_add(graph.len())
        .saturating_add(6)
}

/// An empty text with room for so many bytes.
fn empty_text(alloc: Global, bytes: usize) -> Result<Text, Memory>
    ensures { IfOk result (λ t. t ≡ []) }
{
    Ok(Text::from_string(String::with_capacity(alloc, bytes)?))
}

/// The graph and the space behind it, both empty for the default graph.
fn marked_graph<'t>(terms: &Terms<'t>, blank: TermId, graph: Option<TermId>) -> (&'t str, &'t str)
    requires { IfSome graph (λ g. g.index < length terms.now) }
    ensures { result.0.now ++ result.1.now ≡ marked_graph terms.now blank graph }
{
    match graph {
        Some(graph) => (marked_part(terms, blank, graph), " "),
        None => ("", ""),
    }
}

/// `_:a` for the blank node itself, `_:z` for another one, and any other part as it is kept. RDF
/// Dataset Canonicalization, 4.6.3, step 3.
fn marked_part<'t>(terms: &Terms<'t>, blank: TermId, part: TermId) -> &'t str
    requires { part.index < length terms.now }
    ensures { result.now ≡ marked_part terms.now blank part }
{
    if !terms.is_blank(part) {
        return terms.text(part);
    }
    if part == blank {
        return "_:a";
    }
    "_:z"
}
