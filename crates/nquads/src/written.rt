//! Lines and texts of statements that stand in a store (RDF Dataset Canonicalization, the canonical
//! form of N-Quads).

ghost use Rattle.std.specs.Prelude.{◌≡◌, ◌<◌, ◌++◌, List, All, IfOk, IfSome, OnOk, codes, length, map};
ghost use Rattle.base_types.specs.Sets.{AllDiffer, SameElements};
ghost use Rattle.nquads.specs.Terms.{Statement};
ghost use Rattle.nquads.specs.Spelling.{text_quad};
ghost use Rattle.nquads.specs.Lines.{line, canonical_lines, canonical_text};
ghost use Rattle.nquads.specs.Texts.{label_in};
ghost use Rattle.nquads.specs.Stored.{
  AreLabelsKnown,
  HasLabel,
  IsKnown,
  IsLabelled,
  labels_by_text,
  quad_texts,
};
ghost use Rattle.nquads.specs.Internal.Parts.{number_graph, number_line, number_part};

use crate::lines::join;
use crate::numbers::Labels;
use crate::spelling::text_with_room;
use base_types::{Memory, Sequence, Text};
use std::alloc::Global;
use term_store::{Quad, Quads, TermId, Terms};

/// The canonical line of a statement, LF included, in which each blank node has its label. RDF Dataset
/// Canonicalization, the canonical form of N-Quads.
///
/// # Errors
///
/// `Memory`: there is no memory for the line.
pub fn write_line(
    alloc: Global,
    terms: &Terms<'_>,
    quad: &Quad,
    labels: &Labels,
) -> Result<Text, Memory>
    requires known { IsKnown terms.now quad.now }
    requires labels { AreLabelsKnown terms.now labels.now }
    requires labelled { IsLabelled terms.now labels.now quad.now }
    ensures { (s : Statement) → quad_texts terms.now quad.now ≡ text_quad s
        → IfOk result (λ t. t ≡ line (label_in (labels_by_text terms.now labels.now)) s) }
{
    tell_apart(terms);
    let line = line_by_numbers(alloc, terms, quad, labels)?;
    Ok(line)
}

/// The canonical lines of a dataset: those of its statements in code-point order, each once. RDF
/// Dataset Canonicalization, serialized canonical form.
///
/// # Errors
///
/// `Memory`: there is no memory for the lines.
pub fn write_lines(
    alloc: Global,
    terms: &Terms<'_>,
    quads: &Quads,
    labels: &Labels,
) -> Result<Sequence<Text>, Memory>
    requires known { All (IsKnown terms.now) quads.now }
    requires labels { AreLabelsKnown terms.now labels.now }
    requires labelled { All (IsLabelled terms.now labels.now) quads.now }
    ensures { (q : List Statement)
        → SameElements (map (quad_texts terms.now) quads.now) (map text_quad q)
        → IfOk result (λ lines.
        lines ≡ canonical_lines (label_in (labels_by_text terms.now labels.now)) q) }
{
    tell_apart(terms);
    let mut lines = lines_by_numbers(alloc, terms, quads.as_slice(), labels)?;
    lines.sort_unstable();
    lines.dedup();
    Ok(Sequence::from_vec(lines))
}

/// The canonical text of a dataset: its canonical lines, one after another. RDF Dataset
/// Canonicalization, serialized canonical form.
///
/// # Errors
///
/// `Memory`: there is no memory for the lines or the text.
pub fn write(
    alloc: Global,
    terms: &Terms<'_>,
    quads: &Quads,
    labels: &Labels,
) -> Result<Vec<u8>, Memory>
    requires known { All (IsKnown terms.now) quads.now }
    requires labels { AreLabelsKnown terms.now labels.now }
    requires labelled { All (IsLabelled terms.now labels.now) quads.now }
    ensures { (q : List Statement)
        → SameElements (map (quad_texts terms.now) quads.now) (map text_quad q)
        → IfOk result (λ bytes.
        bytes.items ≡ canonical_text (label_in (labels_by_text terms.now labels.now)) q) }
{
    let lines = write_lines(alloc, terms, quads, labels)?;
    let text = join(alloc, lines.as_slice())?;
    Ok(text)
}

/// No two numbers have one text, so a label that is found by number is that of the text.
fn tell_apart(terms: &Terms<'_>)
    ensures { AllDiffer terms.now }
{
    let _count = terms.len();
}

/// The line of each statement, in their order.
fn lines_by_numbers(
    alloc: Global,
    terms: &Terms<'_>,
    quads: &[Quad],
    labels: &Labels,
) -> Result<Vec<Text>, Memory>
    requires known { All (IsKnown terms.now) quads.now }
    requires labelled { All (IsLabelled terms.now labels.now) quads.now }
    ensures { IfOk result (λ lines.
        lines.items ≡ map (number_line terms.now labels.now) quads.now) }
{
    let mut lines = Vec::with_capacity(alloc, quads.len())?;
    for quad in quads {
        let line = line_by_numbers(alloc, terms, quad, labels)?;
        lines.push(line)?;
    }
    Ok(lines)
}

/// The line of a statement, with room for all of its bytes from the first.
fn line_by_numbers(
    alloc: Global,
    terms: &Terms<'_>,
    quad: &Quad,
    labels: &Labels,
) -> Result<Text, Memory>
    requires known { IsKnown terms.now quad.now }
    requires labelled { IsLabelled terms.now labels.now quad.now }
    ensures { IfOk result (λ t. t ≡ number_line terms.now labels.now quad.now) }
{
    let subject = part(terms, labels, quad.subject);
    let predicate = terms.text(quad.predicate);
    let object = part(terms, labels, quad.object);
    let graph = graph_part(terms, labels, quad.graph);
    let mut out = text_with_room(alloc, room_for(&subject, predicate, &object, &graph))?;
    push_part(&mut out, &subject)?;
    out.push_str(predicate)?;
    out.push_str(" ")?;
    push_part(&mut out, &object)?;
    push_part(&mut out, &graph)?;
    out.push_str(".\n")?;
    Ok(out)
}

/// A part of a line in its pieces: `_:` before a label, the label or the text, and the space behind.
#[derive(Clone, Copy)]
struct LinePart<'p> {
    mark: &'p str,
    text: &'p str,
    space: &'p str,
}

/// The number of bytes of the line: the parts, the space behind the predicate, a dot and LF.
fn room_for(
    subject: &LinePart<'_>,
    predicate: &str,
    object: &LinePart<'_>,
    graph: &LinePart<'_>,
) -> usize {
    part_len(subject)
        .saturating_add(predicate.len())
        .saturating_add(part_len(object))
        .saturating_add(part_len(graph))
        .saturating_add(3)
}

fn part_len(part: &LinePart<'_>) -> usize {
    part.mark
        .len()
        .saturating_add(part.text.len())
        .saturating_add(part.space.len())
}

fn push_part(out: &mut Text, part: &LinePart<'_>) -> Result<(), Memory>
    ensures { OnOk result
        (out.new ≡ out.old ++ (part.now.mark.now ++ (part.now.text.now ++ part.now.space.now))) }
{
    out.push_str(part.mark)?;
    out.push_str(part.text)?;
    out.push_str(part.space)
}

/// The graph and a space, or nothing for the default graph.
fn graph_part<'p>(terms: &'p Terms<'_>, labels: &'p Labels, graph: Option<TermId>) -> LinePart<'p>
    requires known { IfSome graph (λ g. g.index < length terms.now) }
    requires labelled { IfSome graph (HasLabel terms.now labels.now) }
    ensures { result.mark.now ++ (result.text.now ++ result.space.now)
        ≡ number_graph terms.now labels.now graph }
{
    match graph {
        Some(id) => part(terms, labels, id),
        None => LinePart {
            mark: "",
            text: "",
            space: "",
        },
    }
}

/// `_:` and the label of a blank node, or any other part as it is kept, and a space.
fn part<'p>(terms: &'p Terms<'_>, labels: &'p Labels, id: TermId) -> LinePart<'p>
    requires known { id.index < length terms.now }
    requires labelled { HasLabel terms.now labels.now id }
    ensures { result.mark.now ++ (result.text.now ++ result.space.now)
        ≡ number_part terms.now labels.now id ++ codes " " }
{
    if !terms.is_blank(id) {
        return LinePart {
            mark: "",
            text: terms.text(id),
            space: " ",
        };
    }
    let Some(label) = labels.get(id) else {
        unreachable!()
    };
    LinePart {
        mark: "_:",
        text: label.as_str(),
        space: " ",
    }
}
