//! The statements of flat documents (JSON-LD 1.1 API, 8.1).

ghost use Rattle.std.specs.Prelude.{◌≡◌, ℕ, [], true, List, map, option_map, IfOk, IsErrOf};
ghost use Rattle.base_types.specs.Order.{sorted_set};
ghost use Rattle.json_tree.specs.Trees.{is_lawful, AreLawful};
ghost use Rattle.nquads.specs.Terms.{Blank, Statement, IsStatement};
ghost use Rattle.nquads.specs.Spelling.{text_quad};
ghost use Rattle.nquads.specs.Lines.{canonical_lines};
ghost use Rattle.ld_rdf.specs.Flat.{IsFlat, IsFlatMeaning, Means, property_statement};
ghost use Rattle.ld_rdf.specs.Internal.Parts.{property_of, is_left_out, agrees, statements_beside, statements_under, chosen_statements, reduced_statements, whole_statements, request_statements};
ghost use Rattle.ld_rdf.specs.Internal.Outcomes.{Builds, BuildsItems};

use crate::fault::FlatFault;
use crate::forms::Form;
use crate::parts::{are_definitions, member_text, supplied_context, text_beside, two_members};
use crate::plain::{has_noncharacter, is_plain_iri};
use base_types::{Memory, Sequence, Text};
use json_tree::{Member, Tree};
use nquads::{TextQuad, TextQuads, iri, literal};
use std::alloc::Global;

/// The datatype of a text.
const XSD_STRING: &str = "http://www.w3.org/2001/XMLSchema#string";

/// The statement of one member of the document.
fn property<F: Form>(
    alloc: Global,
    terms: &[Member],
    id: &Text,
    member: &Member,
) -> Result<F, FlatFault>
    requires { AreLawful terms.now }
    ensures { Builds
        (option_map (λ p. F.form_of (property_statement id.now p.0 p.1))
        (property_of terms.now member.now))
        result }
{
    let Some(mapping) = member_text(member.key.as_str(), terms) else {
        return Err(FlatFault::NotBuilt);
    };
    let Some(text) = member.value.as_text() else {
        return Err(FlatFault::NotBuilt);
    };
    if has_noncharacter(text.as_str()) {
        return Err(FlatFault::NotBuilt);
    }
    let quad = TextQuad {
        subject: iri(alloc, id.as_str())?,
        predicate: iri(alloc, mapping.as_str())?,
        object: literal(alloc, text.as_str(), XSD_STRING, None)?,
        graph: None,
    };
    Ok(F::from_quad(alloc, quad)?)
}

/// Whether a member of that name gives no statement: the one that is left out, `@id` and
/// `@context`.
fn is_left_out(besides: &str, key: &str) -> bool
    ensures { result ≡ is_left_out besides.now key.now }
{
    key == besides || key == "@id" || key == "@context"
}

/// No statements yet, with room for so many.
fn room_for<F: Form>(alloc: Global, statements: usize) -> Result<Vec<F>, Memory>
    ensures { IfOk result (λ made. made.items ≡ []) }
{
    Ok(Vec::with_capacity(alloc, statements)?)
}

/// The statements of the members that are not left out, in their order.
#[tactic(auto, using(crate::proofs::LoopTurns::turns))]
fn properties<F: Form>(
    alloc: Global,
    terms: &[Member],
    id: &Text,
    members: &[Member],
    besides: &str,
) -> Result<Vec<F>, FlatFault>
    requires { AreLawful terms.now }
    ensures { BuildsItems
        (option_map (map F.form_of) (statements_beside besides.now terms.now id.now members.now))
        result }
{
    let mut made = room_for(alloc, members.len())?;
    for member in members {
        if !is_left_out(besides, member.key.as_str()) {
            let form = property(alloc, terms, id, member)?;
            made.push(form)?;
        }
    }
    Ok(made)
}

/// Whether a document with these entries can take the context of that name.
fn agrees(name: &Text, chosen: &Text, id: &Text, terms: &[Member]) -> bool
    ensures { result ≡ agrees name.now chosen.now id.now terms.now }
{
    is_plain_iri(id.as_str()) && name == chosen && are_definitions(terms)
}

/// The statements of members under the supplied context, where they take the context of the chosen
/// name.
fn statements_under<F: Form>(
    alloc: Global,
    name: &Text,
    terms: &[Member],
    chosen: &Text,
    members: &[Member],
    besides: &str,
) -> Result<Vec<F>, FlatFault>
    requires terms { AreLawful terms.now }
    requires members { AreLawful members.now }
    ensures { BuildsItems (option_map (map F.form_of)
        (statements_under besides.now chosen.now (name.now, terms.now) members.now)) result }
{
    let Some(id) = text_beside(besides, "@id", members) else {
        return Err(FlatFault::NotBuilt);
    };
    if !agrees(name, chosen, id, terms) {
        return Err(FlatFault::NotBuilt);
    }
    properties(alloc, terms, id, members, besides)
}

/// The statements of a tree without its member `besides`, which takes the context of the chosen
/// name.
pub fn chosen_statements<F: Form>(
    alloc: Global,
    contexts: &Tree,
    chosen: &Text,
    tree: &Tree,
    besides: &str,
) -> Result<Vec<F>, FlatFault>
    requires contexts { is_lawful contexts.now ≡ true }
    requires tree { is_lawful tree.now ≡ true }
    ensures { BuildsItems (option_map (map F.form_of)
        (chosen_statements besides.now contexts.now chosen.now tree.now)) result }
{
    let Some((name, terms)) = supplied_context(contexts) else {
        return Err(FlatFault::NotBuilt);
    };
    let Some(members) = tree.as_object() else {
        return Err(FlatFault::NotBuilt);
    };
    statements_under(alloc, name, terms, chosen, members, besides)
}

/// The statements of a document without its member `besides`, which takes the context that it
/// names.
pub fn reduced_statements(
    alloc: Global,
    contexts: &Tree,
    document: &Tree,
    besides: &str,
) -> Result<Vec<TextQuad>, FlatFault>
    requires contexts { is_lawful contexts.now ≡ true }
    requires document { is_lawful document.now ≡ true }
    ensures { BuildsItems (option_map (map text_quad)
        (reduced_statements besides.now contexts.now document.now)) result }
{
    let Some(members) = document.as_object() else {
        return Err(FlatFault::NotBuilt);
    };
    let Some(chosen) = text_beside(besides, "@context", members) else {
        return Err(FlatFault::NotBuilt);
    };
    chosen_statements(alloc, contexts, chosen, document, besides)
}

/// The statements of a whole document, which takes the context that it names.
fn whole_statements<F: Form>(
    alloc: Global,
    contexts: &Tree,
    document: &Tree,
) -> Result<Vec<F>, FlatFault>
    requires contexts { is_lawful contexts.now ≡ true }
    requires document { is_lawful document.now ≡ true }
    ensures { BuildsItems (option_map (map F.form_of)
        (whole_statements contexts.now document.now)) result }
{
    let Some(members) = document.as_object() else {
        return Err(FlatFault::NotBuilt);
    };
    let Some(chosen) = member_text("@context", members) else {
        return Err(FlatFault::NotBuilt);
    };
    // It gives no statement in any case, so no member is left out that has one.
    chosen_statements(alloc, contexts, chosen, document, "@context")
}

/// The statements of a flat request.
fn request_statements<F: Form>(alloc: Global, request: &Tree) -> Result<Vec<F>, FlatFault>
    requires { is_lawful request.now ≡ true }
    ensures { BuildsItems (option_map (map F.form_of) (request_statements request.now)) result }
{
    let Some((contexts, document)) = two_members(request) else {
        return Err(FlatFault::NotBuilt);
    };
    whole_statements(alloc, contexts, document)
}

/// The statements of a flat request: one for each member of the document beside `@id` and `@context`,
/// from the `@id`, by the IRI to which the supplied context maps the member's name, to its text as
/// xsd:string, in the default graph.
///
/// # Errors
///
/// `NotBuilt` exactly where the request is not flat.
pub fn flat(alloc: Global, request: &Tree) -> Result<TextQuads, FlatFault>
    requires { is_lawful request.now ≡ true }
    ensures ok { IfOk result (λ quads. IsFlat request.now × ((q : List Statement)
        × IsFlatMeaning request.now q × (quads ≡ map text_quad q))) }
    ensures statements { IfOk result (λ _. (s : Statement) → Means request.now s → IsStatement s) }
    ensures not_built { IsErrOf result FlatFault.NotBuilt → IsFlat request.now → ⊥ }
{
    match request_statements(alloc, request) {
        Ok(quads) => Ok(TextQuads::from_vec(quads)),
        Err(fault) => Err(fault),
    }
}

/// The canonical lines of the statements of a flat request, in code-point order, each once (RDF
/// Dataset Canonicalization, serialized canonical form). No statement has a blank node, so they are
/// the same under any labels.
///
/// # Errors
///
/// `NotBuilt` exactly where the request is not flat.
pub fn flat_lines(alloc: Global, request: &Tree) -> Result<Sequence<Text>, FlatFault>
    requires { is_lawful request.now ≡ true }
    ensures ok { IfOk result (λ lines. IsFlat request.now × ((q : List Statement)
        × IsFlatMeaning request.now q
        × ((label : Blank → List ℕ) → lines ≡ canonical_lines label q))) }
    ensures statements { IfOk result (λ _. (s : Statement) → Means request.now s → IsStatement s) }
    ensures not_built { IsErrOf result FlatFault.NotBuilt → IsFlat request.now → ⊥ }
{
    match request_statements(alloc, request) {
        Ok(lines) => Ok(in_order(lines)),
        Err(fault) => Err(fault),
    }
}

/// The lines in code-point order, each once.
fn in_order(lines: Vec<Text>) -> Sequence<Text>
    ensures { result ≡ sorted_set lines.items }
{
    let mut lines = lines;
    lines.sort_unstable();
    lines.dedup();
    Sequence::from_vec(lines)
}
