//! Tests of lines and texts of statements by numbers. What is wanted was typed from the standard's
//! rules.

ghost use Rattle.std.specs.Prelude.{◌≡◌, ◌<◌, All, IfSome, IsTrue, length};
ghost use Rattle.nquads.specs.Stored.{AreLabelsKnown, HasLabel, IsKnown, IsLabelled};

use bumpalo::Bump;
use nquads::{Labels, Memory, Text, write, write_line, write_lines};
use std::alloc::Global;
use term_store::{Quad, Quads, TermId, Terms};

const PREDICATE: &str = "<http://example.org/p>";

/// Subject, object and graph of the statements of a dataset, the third twice. Two literals and an
/// IRI hold what a blank node begins with.
const STATEMENTS: [(&str, &str, Option<&str>); 9] = [
    ("_:nx", "\"_:x\"", None),
    ("_:ny", "_:nx", Some("_:g/0")),
    ("<http://example.org/s>", "\"\u{1f980}\"", None),
    ("<http://example.org/s>", "\"\u{1f980}\"", None),
    ("<http://example.org/s>", "\"\u{ff5e}\"", None),
    ("<urn:_:nx>", "\"_:nx\"", Some("<http://example.org/g>")),
    ("_:nx", "_:nx", Some("_:nx")),
    ("_:nx", "_:nz", None),
    ("_:nx", "_:nw", None),
];

/// The labels of the blank nodes; two of them have one.
const LABELS: [(&str, &str); 5] = [
    ("_:nx", "c14n1"),
    ("_:ny", "c14n0"),
    ("_:nz", "b"),
    ("_:g/0", "c14n2"),
    ("_:nw", "b"),
];

/// The lines under these labels, in code-point order, each once.
const LINES: [&str; 7] = [
    "<http://example.org/s> <http://example.org/p> \"\u{ff5e}\" .\n",
    "<http://example.org/s> <http://example.org/p> \"\u{1f980}\" .\n",
    "<urn:_:nx> <http://example.org/p> \"_:nx\" <http://example.org/g> .\n",
    "_:c14n0 <http://example.org/p> _:c14n1 _:c14n2 .\n",
    "_:c14n1 <http://example.org/p> \"_:x\" .\n",
    "_:c14n1 <http://example.org/p> _:b .\n",
    "_:c14n1 <http://example.org/p> _:c14n1 _:c14n1 .\n",
];

/// The number of a text.
fn id_of(terms: &mut Terms<'_>, text: &str) -> Result<TermId, Memory> {
    terms.intern(text)
}

/// The number of a graph's text, where there is one.
fn graph_of(terms: &mut Terms<'_>, graph: Option<&str>) -> Result<Option<TermId>, Memory> {
    match graph {
        Some(text) => Ok(Some(id_of(terms, text)?)),
        None => Ok(None),
    }
}

fn quad(
    terms: &mut Terms<'_>,
    subject: &str,
    object: &str,
    graph: Option<&str>,
) -> Result<Quad, Memory> {
    let graph = graph_of(terms, graph)?;
    let subject = id_of(terms, subject)?;
    let predicate = id_of(terms, PREDICATE)?;
    let object = id_of(terms, object)?;
    Ok(Quad {
        subject,
        predicate,
        object,
        graph,
    })
}

fn dataset(alloc: Global, terms: &mut Terms<'_>) -> Result<Quads, Memory> {
    let mut quads = Vec::new(alloc);
    for (subject, object, graph) in &STATEMENTS {
        quads.push(quad(terms, subject, object, *graph)?)?;
    }
    Ok(Quads::from_vec(quads))
}

/// Puts in the label of a blank node that has none.
fn put_label(
    alloc: Global,
    terms: &mut Terms<'_>,
    labels: &mut Labels,
    row: (&str, &str),
) -> Result<(), Memory> {
    let id = id_of(terms, row.0)?;
    if labels.get(id).is_none() {
        labels.push(id, Text::from_str(alloc, row.1)?)?;
    }
    Ok(())
}

/// The labels, put in from the last to the first where `backwards` says so.
fn labels(alloc: Global, terms: &mut Terms<'_>, backwards: bool) -> Result<Labels, Memory> {
    let mut labels = Labels::new(alloc);
    for place in 0..LABELS.len() {
        let at = if backwards {
            LABELS.len() - 1 - place
        } else {
            place
        };
        put_label(alloc, terms, &mut labels, LABELS[at])?;
    }
    Ok(labels)
}

fn is_in(terms: &Terms<'_>, id: TermId) -> bool
    ensures { IsTrue result → id.index < length terms.now }
{
    (id.index as usize) < terms.len()
}

fn is_graph_in(terms: &Terms<'_>, graph: Option<TermId>) -> bool
    ensures { IsTrue result → IfSome graph (λ g. g.index < length terms.now) }
{
    match graph {
        Some(id) => is_in(terms, id),
        None => true,
    }
}

fn is_known(terms: &Terms<'_>, quad: &Quad) -> bool
    ensures { IsTrue result → IsKnown terms.now quad.now }
{
    is_in(terms, quad.subject)
        && is_in(terms, quad.predicate)
        && is_in(terms, quad.object)
        && is_graph_in(terms, quad.graph)
}

fn has_label(terms: &Terms<'_>, labels: &Labels, id: TermId) -> bool
    ensures { IsTrue result → HasLabel terms.now labels.now id }
{
    is_in(terms, id) && (!terms.is_blank(id) || labels.get(id).is_some())
}

fn has_graph_label(terms: &Terms<'_>, labels: &Labels, graph: Option<TermId>) -> bool
    ensures { IsTrue result → IfSome graph (HasLabel terms.now labels.now) }
{
    match graph {
        Some(id) => has_label(terms, labels, id),
        None => true,
    }
}

fn is_labelled(terms: &Terms<'_>, labels: &Labels, quad: &Quad) -> bool
    ensures { IsTrue result → IsLabelled terms.now labels.now quad.now }
{
    has_label(terms, labels, quad.subject)
        && has_label(terms, labels, quad.object)
        && has_graph_label(terms, labels, quad.graph)
}

fn are_known(terms: &Terms<'_>, quads: &[Quad]) -> bool
    ensures { IsTrue result → All (IsKnown terms.now) quads.now }
{
    for quad in quads {
        if !is_known(terms, quad) {
            return false;
        }
    }
    true
}

fn are_labelled(terms: &Terms<'_>, labels: &Labels, quads: &[Quad]) -> bool
    ensures { IsTrue result → All (IsLabelled terms.now labels.now) quads.now }
{
    for quad in quads {
        if !is_labelled(terms, labels, quad) {
            return false;
        }
    }
    true
}

fn are_labels_known(terms: &Terms<'_>, labels: &Labels) -> bool
    ensures { IsTrue result → AreLabelsKnown terms.now labels.now }
{
    for place in 0..labels.len() {
        let Some((id, _)) = labels.at(place) else {
            return false;
        };
        if !is_in(terms, id) {
            return false;
        }
    }
    true
}

/// Whether the dataset may be written.
fn is_writable(terms: &Terms<'_>, quads: &Quads, labels: &Labels) -> bool
    ensures known { IsTrue result → All (IsKnown terms.now) quads.now }
    ensures labels { IsTrue result → AreLabelsKnown terms.now labels.now }
    ensures labelled { IsTrue result → All (IsLabelled terms.now labels.now) quads.now }
{
    are_known(terms, quads.as_slice())
        && are_labels_known(terms, labels)
        && are_labelled(terms, labels, quads.as_slice())
}

/// Whether the statement's line may be written.
fn is_line_writable(terms: &Terms<'_>, quad: &Quad, labels: &Labels) -> bool
    ensures known { IsTrue result → IsKnown terms.now quad.now }
    ensures labels { IsTrue result → AreLabelsKnown terms.now labels.now }
    ensures labelled { IsTrue result → IsLabelled terms.now labels.now quad.now }
{
    is_known(terms, quad) && are_labels_known(terms, labels) && is_labelled(terms, labels, quad)
}

/// The line of a statement, or nothing where it may not be written.
fn line_by_numbers(alloc: Global) -> Result<Text, Memory> {
    let arena = Bump::new(alloc);
    let mut terms = Terms::new(alloc, &arena)?;
    let labels = labels(alloc, &mut terms, false)?;
    let quad = quad(&mut terms, "_:nx", "\"é\"@fr", Some("_:g/0"))?;
    if !is_line_writable(&terms, &quad, &labels) {
        return Ok(Text::new(alloc));
    }
    write_line(alloc, &terms, &quad, &labels)
}

#[test]
fn a_line_by_numbers_has_all_four_parts(rt: HostRuntime) -> Result<(), Memory> {
    assert_eq!(rt;
        line_by_numbers(rt.alloc())?.as_str(),
        "_:c14n1 <http://example.org/p> \"é\"@fr _:c14n2 .\n"
    );
    Ok(())
}

/// Whether these are the lines.
fn are_the_lines(lines: &[Text]) -> bool {
    lines.len() == LINES.len()
        && lines
            .iter()
            .zip(&LINES)
            .all(|(line, want)| line.as_str() == *want)
}

/// The lines, one after another.
fn joined(alloc: Global) -> Result<Vec<u8>, Memory> {
    let mut wanted = Vec::new(alloc);
    for line in &LINES {
        wanted.extend_from_slice(line.as_bytes())?;
    }
    Ok(wanted)
}

/// Whether the dataset has these lines, one after another in its text, with labels put in so.
fn has_the_lines(alloc: Global, backwards: bool) -> Result<bool, Memory> {
    let arena = Bump::new(alloc);
    let mut terms = Terms::new(alloc, &arena)?;
    let quads = dataset(alloc, &mut terms)?;
    let labels = labels(alloc, &mut terms, backwards)?;
    if !is_writable(&terms, &quads, &labels) {
        return Ok(false);
    }
    let lines = write_lines(alloc, &terms, &quads, &labels)?;
    let text = write(alloc, &terms, &quads, &labels)?;
    Ok(are_the_lines(lines.as_slice()) && text.as_slice() == joined(alloc)?.as_slice())
}

#[test]
fn a_text_by_numbers_is_sorted_without_repeats(rt: HostRuntime) -> Result<(), Memory> {
    assert!(rt; has_the_lines(rt.alloc(), false)?, "forwards");
    assert!(rt; has_the_lines(rt.alloc(), true)?, "backwards");
    Ok(())
}

/// Whether the blank node has this label, or none.
fn is_labelled_as(
    terms: &mut Terms<'_>,
    labels: &Labels,
    blank: &str,
    want: Option<&str>,
) -> Result<bool, Memory> {
    let id = id_of(terms, blank)?;
    Ok(match labels.get(id) {
        Some(text) => want == Some(text.as_str()),
        None => want.is_none(),
    })
}

/// The first blank node that has another label, or nothing.
fn first_unlabelled(alloc: Global) -> Result<&'static str, Memory> {
    let arena = Bump::new(alloc);
    let mut terms = Terms::new(alloc, &arena)?;
    let labels = labels(alloc, &mut terms, true)?;
    for (blank, want) in &LABELS {
        if !is_labelled_as(&mut terms, &labels, blank, Some(*want))? {
            return Ok(blank);
        }
    }
    if !is_labelled_as(&mut terms, &labels, "_:c14n1", None)? {
        return Ok("_:c14n1");
    }
    if labels.len() != LABELS.len() || labels.at(LABELS.len()).is_some() {
        return Ok("one too many");
    }
    Ok("")
}

#[test]
fn labels_are_found_by_number(rt: HostRuntime) -> Result<(), Memory> {
    assert_eq!(rt; first_unlabelled(rt.alloc())?, "");
    Ok(())
}
