//! What the parts of a line mean, as the texts under which a store keeps them.

ghost use Rattle.std.specs.Prelude.{◌≡◌, IfOk, option_map, option_and_then};
ghost use Rattle.nquads.specs.Spelling.{iri_text, spelling, text_quad};
ghost use Rattle.nquads.specs.Internal.Parsing.{
  blank_of,
  graph_of,
  iri_of,
  language_end,
  literal_of,
  resource_of,
  seen,
  seen_end,
  seen_line,
  statement_of,
  term_of,
  typed_literal,
  with_end,
};

use crate::grammar::{has_noncharacter, is_iri, is_label, is_language};
use crate::meaning::meant;
use crate::parts::{Ending, LineParts, Part};
use crate::quads::TextQuad;
use crate::spelling::{XSD_STRING, iri, literal, text_with_room};
use base_types::{Memory, Text};
use std::alloc::Global;

/// The datatype of each literal that has a language, and of no other.
const RDF_LANG_STRING: &str = "http://www.w3.org/1999/02/22-rdf-syntax-ns#langString";

/// The IRI that is written so between its brackets.
fn iri_of(alloc: Global, inner: &str) -> Result<Option<Text>, Memory>
    ensures { IfOk result (λ text. text ≡ iri_of inner.now) }
{
    let Some(text) = meant(alloc, inner, false)? else {
        return Ok(None);
    };
    if is_iri(text.as_str()) {
        return Ok(Some(text));
    }
    Ok(None)
}

/// The same in its brackets.
fn iri_text(alloc: Global, inner: &str) -> Result<Option<Text>, Memory>
    ensures { IfOk result (λ text. text ≡ option_map iri_text (iri_of inner.now)) }
{
    let Some(text) = iri_of(alloc, inner)? else {
        return Ok(None);
    };
    let written = iri(alloc, text.as_str())?;
    Ok(Some(written))
}

/// A literal with the datatype that is written so, which is not rdf:langString.
fn typed_literal(alloc: Global, text: &str, inner: &str) -> Result<Option<Text>, Memory>
    ensures { IfOk result (λ t. t
        ≡ option_map spelling (option_and_then (typed_literal text.now) (iri_of inner.now))) }
{
    let Some(datatype) = iri_of(alloc, inner)? else {
        return Ok(None);
    };
    if datatype.as_str() == RDF_LANG_STRING {
        return Ok(None);
    }
    let written = literal(alloc, text, datatype.as_str(), None)?;
    Ok(Some(written))
}

/// A literal with a language.
fn language_literal(alloc: Global, text: &str, tag: &str) -> Result<Option<Text>, Memory>
    ensures { IfOk result (λ t.
        t ≡ option_map spelling (with_end text.now (language_end tag.now))) }
{
    if !is_language(tag) {
        return Ok(None);
    }
    let written = literal(alloc, text, RDF_LANG_STRING, Some(tag))?;
    Ok(Some(written))
}

/// A literal with what follows its closing quote.
fn with_end(alloc: Global, text: &str, end: Ending<'_>) -> Result<Option<Text>, Memory>
    ensures { IfOk result (λ t. t ≡ option_map spelling (with_end text.now (seen_end end.entry))) }
{
    match end {
        Ending::Plain => {
            let written = literal(alloc, text, XSD_STRING, None)?;
            Ok(Some(written))
        }
        Ending::Language(tag) => language_literal(alloc, text, tag),
        Ending::Datatype(inner) => typed_literal(alloc, text, inner),
    }
}

fn literal_of(alloc: Global, inner: &str, end: Ending<'_>) -> Result<Option<Text>, Memory>
    ensures { IfOk result (λ t.
        t ≡ option_map spelling (literal_of inner.now (seen_end end.entry))) }
{
    let Some(text) = meant(alloc, inner, true)? else {
        return Ok(None);
    };
    if has_noncharacter(text.as_str()) {
        return Ok(None);
    }
    with_end(alloc, text.as_str(), end)
}

fn blank_of(alloc: Global, label: &str) -> Result<Option<Text>, Memory>
    ensures { IfOk result (λ t. t ≡ option_map spelling (blank_of label.now)) }
{
    if !is_label(label) {
        return Ok(None);
    }
    let mut text = text_with_room(alloc, label.len().saturating_add(3))?;
    text.push_str("_:n")?;
    text.push_str(label)?;
    Ok(Some(text))
}

/// A term.
fn term_of(alloc: Global, part: Part<'_>) -> Result<Option<Text>, Memory>
    ensures { IfOk result (λ t. t ≡ option_map spelling (term_of (seen part.entry))) }
{
    match part {
        Part::Iri(inner) => iri_text(alloc, inner),
        Part::Literal(inner, end) => literal_of(alloc, inner, end),
        Part::Blank(label) => blank_of(alloc, label),
    }
}

/// A term that is no literal.
fn resource_of(alloc: Global, part: Part<'_>) -> Result<Option<Text>, Memory>
    ensures { IfOk result (λ t. t ≡ option_map spelling (resource_of (seen part.entry))) }
{
    match part {
        Part::Iri(inner) => iri_text(alloc, inner),
        Part::Literal(_, _) => Ok(None),
        Part::Blank(label) => blank_of(alloc, label),
    }
}

/// A graph, or none.
fn graph_of(alloc: Global, graph: Option<Part<'_>>) -> Result<Option<Option<Text>>, Memory>
    ensures { IfOk result (λ g.
        g ≡ option_map (λ t. option_map spelling t) (graph_of (option_map seen graph.entry))) }
{
    let Some(part) = graph else {
        return Ok(Some(None));
    };
    let Some(text) = resource_of(alloc, part)? else {
        return Ok(None);
    };
    Ok(Some(Some(text)))
}

/// The statement that the parts make.
#[tactic(auto, unfolding(crate::specs::Internal::Parsing::statement_of))]
pub(crate) fn statement_of(alloc: Global, parts: &LineParts<'_>) -> Result<Option<TextQuad>, Memory>
    ensures { IfOk result (λ quad.
        quad ≡ option_map text_quad (statement_of (seen_line parts.now))) }
{
    let Some(subject) = resource_of(alloc, parts.subject)? else {
        return Ok(None);
    };
    let Some(predicate) = iri_text(alloc, parts.predicate)? else {
        return Ok(None);
    };
    let Some(object) = term_of(alloc, parts.object)? else {
        return Ok(None);
    };
    let Some(graph) = graph_of(alloc, parts.graph)? else {
        return Ok(None);
    };
    Ok(Some(TextQuad {
        subject,
        predicate,
        object,
        graph,
    }))
}
