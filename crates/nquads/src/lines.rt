//! The lines and the text of a dataset (RDF Dataset Canonicalization, the canonical form of N-Quads).

ghost use Rattle.std.specs.Prelude.{◌≡◌, List, ◌++◌, map, IfOk, OnOk};
ghost use Rattle.std.specs.List.{concat};
ghost use Rattle.base_types.specs.Sets.{SameElements};
ghost use Rattle.nquads.specs.Terms.{Statement};
ghost use Rattle.nquads.specs.Spelling.{text_quad};
ghost use Rattle.nquads.specs.Lines.{line, canonical_lines, canonical_text};
ghost use Rattle.nquads.specs.Texts.{label_in, label_text};
ghost use Rattle.nquads.specs.Internal.TextLines.{is_blank, graph_part_text, part_text, text_line};

use crate::labels::TextLabels;
use crate::quads::{TextQuad, TextQuads};
use crate::spelling::text_with_room;
use base_types::{Memory, Sequence, Text};
use std::alloc::Global;

/// The canonical lines of a dataset: those of its statements in code-point order, each once. RDF
/// Dataset Canonicalization, serialized canonical form.
///
/// # Errors
///
/// `Memory`: there is no memory for the lines.
pub fn canonical_lines(
    alloc: Global,
    quads: &TextQuads,
    labels: &TextLabels,
) -> Result<Sequence<Text>, Memory>
    ensures { (q : List Statement) → SameElements quads.now (map text_quad q)
        → IfOk result (λ lines. lines ≡ canonical_lines (label_in labels.now) q) }
{
    let mut lines = lines_of(alloc, quads.as_slice(), labels)?;
    lines.sort_unstable();
    lines.dedup();
    Ok(Sequence::from_vec(lines))
}

/// The canonical text of a dataset: its canonical lines, one after another. RDF Dataset
/// Canonicalization, serialized canonical form.
///
/// # Errors
///
/// `Memory`: there is no memory for the lines or the text.
pub fn text_of(alloc: Global, quads: &TextQuads, labels: &TextLabels) -> Result<Vec<u8>, Memory>
    ensures { (q : List Statement) → SameElements quads.now (map text_quad q)
        → IfOk result (λ bytes. bytes.items ≡ canonical_text (label_in labels.now) q) }
{
    let lines = canonical_lines(alloc, quads, labels)?;
    let text = join(alloc, lines.as_slice())?;
    Ok(text)
}

/// The texts, one after another.
///
/// # Errors
///
/// `Memory`: there is no memory for the joined text.
pub fn join(alloc: Global, texts: &[Text]) -> Result<Vec<u8>, Memory>
    ensures { IfOk result (λ bytes. bytes.items ≡ concat texts.now) }
{
    let mut bytes = Vec::new(alloc);
    for text in texts {
        bytes.extend_from_slice(text.as_bytes())?;
    }
    Ok(bytes)
}

/// Whether a part of a text quad is a blank node.
fn is_blank(part: &Text) -> bool
    ensures { result ≡ is_blank part.now }
{
    part.as_bytes().first() == Some(&b'_')
}

/// The canonical line of a statement, LF included, in which each blank node has its label. RDF Dataset
/// Canonicalization, the canonical form of N-Quads.
///
/// # Errors
///
/// `Memory`: there is no memory for the line.
pub fn line_of(alloc: Global, quad: &TextQuad, labels: &TextLabels) -> Result<Text, Memory>
    ensures { (s : Statement) → quad.now ≡ text_quad s
        → IfOk result (λ t. t ≡ line (label_in labels.now) s) }
{
    let line = write_line(alloc, quad, labels)?;
    Ok(line)
}

fn write_line(alloc: Global, quad: &TextQuad, labels: &TextLabels) -> Result<Text, Memory>
    ensures { IfOk result (λ t. t ≡ text_line (label_text labels.now) quad.now) }
{
    let mut out = text_with_room(alloc, room_for(quad))?;
    push_part(&mut out, &quad.subject, labels)?;
    out.push_str(" ")?;
    out.push_str(quad.predicate.as_str())?;
    out.push_str(" ")?;
    push_part(&mut out, &quad.object, labels)?;
    out.push_str(" ")?;
    push_graph(&mut out, &quad.graph, labels)?;
    out.push_str(".\n")?;
    Ok(out)
}

/// The line of each statement, in their order.
fn lines_of(alloc: Global, quads: &[TextQuad], labels: &TextLabels) -> Result<Vec<Text>, Memory>
    ensures { IfOk result (λ lines.
        lines.items ≡ map (text_line (label_text labels.now)) quads.now) }
{
    let mut lines = Vec::new(alloc);
    for quad in quads {
        let line = write_line(alloc, quad, labels)?;
        lines.push(line)?;
    }
    Ok(lines)
}

/// About as many bytes as the line has: the parts, a space behind each, a dot and LF.
fn room_for(quad: &TextQuad) -> usize {
    let graph = match &quad.graph {
        Some(graph) => graph.len(),
        None => 0,
    };
    quad.subject
        .len()
        .saturating_add(quad.predicate.len())
        .saturating_add(quad.object.len())
        .saturating_add(graph)
        .saturating_add(6)
}

/// The graph and a space, or nothing for the default graph.
fn push_graph(out: &mut Text, graph: &Option<Text>, labels: &TextLabels) -> Result<(), Memory>
    ensures { OnOk result (out.new ≡ out.old ++ graph_part_text (label_text labels.now) graph.now) }
{
    if let Some(graph) = graph {
        push_part(out, graph, labels)?;
        out.push_str(" ")?;
    }
    Ok(())
}

/// A part of a line: `_:` and the label of a blank node, which is the empty text where it has none,
/// and any other part as it is spelled.
fn push_part(out: &mut Text, part: &Text, labels: &TextLabels) -> Result<(), Memory>
    ensures { OnOk result (out.new ≡ out.old ++ part_text (label_text labels.now) part.now) }
{
    if !is_blank(part) {
        return out.push_str(part.as_str());
    }
    out.push_str("_:")?;
    push_label(out, part.as_str(), labels)
}

fn push_label(out: &mut Text, blank: &str, labels: &TextLabels) -> Result<(), Memory>
    ensures { OnOk result (out.new ≡ out.old ++ label_text labels.now blank.now) }
{
    match labels.get(blank) {
        Some(label) => out.push_str(label.as_str()),
        None => Ok(()),
    }
}
