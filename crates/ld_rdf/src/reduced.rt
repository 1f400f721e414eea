//! The statements of a document without one member, and of proof options (JSON-LD 1.1 API, 8.1).

ghost use Rattle.std.specs.Prelude.{◌≡◌, true, List, map, IfOk, IsErrOf};
ghost use Rattle.json_tree.specs.Trees.{is_lawful};
ghost use Rattle.json_tree.specs.Members.{without};
ghost use Rattle.nquads.specs.Terms.{Statement, IsStatement};
ghost use Rattle.nquads.specs.Spelling.{text_quad};
ghost use Rattle.ld_rdf.specs.Flat.{IsFlat, IsFlatMeaning, Means};
ghost use Rattle.ld_rdf.specs.Reduced.{statements_request, with_context};

use crate::fault::FlatFault;
use crate::statements::{chosen_statements, reduced_statements};
use base_types::Text;
use json_tree::Tree;
use nquads::TextQuads;
use std::alloc::Global;

/// The statements of a flat document under supplied contexts, without its member `besides`.
///
/// # Errors
///
/// `NotBuilt` exactly where the request for the statements of that document is not flat.
pub fn flat_document(
    alloc: Global,
    contexts: &Tree,
    document: &Tree,
    besides: &str,
) -> Result<TextQuads, FlatFault>
    requires contexts { is_lawful contexts.now ≡ true }
    requires document { is_lawful document.now ≡ true }
    ensures ok { let request = statements_request contexts.now (without besides.now document.now) in
        IfOk result (λ quads. IsFlat request
        × ((q : List Statement) × IsFlatMeaning request q × (quads ≡ map text_quad q))) }
    ensures statements { let request = statements_request contexts.now
        (without besides.now document.now) in
        IfOk result (λ _. (s : Statement) → Means request s → IsStatement s) }
    ensures not_built { let request = statements_request contexts.now
        (without besides.now document.now) in
        IsErrOf result FlatFault.NotBuilt → IsFlat request → ⊥ }
{
    match reduced_statements(alloc, contexts, document, besides) {
        Ok(quads) => Ok(TextQuads::from_vec(quads)),
        Err(fault) => Err(fault),
    }
}

/// The statements of flat proof options, which take the context of that name, without their member
/// `besides`.
///
/// # Errors
///
/// `NotBuilt` exactly where the options, taken as a document with that context, are not flat.
pub fn flat_options(
    alloc: Global,
    contexts: &Tree,
    context: &Text,
    options: &Tree,
    besides: &str,
) -> Result<TextQuads, FlatFault>
    requires contexts { is_lawful contexts.now ≡ true }
    requires options { is_lawful options.now ≡ true }
    ensures ok { let request = statements_request contexts.now
        (with_context context.now (without besides.now options.now)) in
        IfOk result (λ quads. IsFlat request
        × ((q : List Statement) × IsFlatMeaning request q × (quads ≡ map text_quad q))) }
    ensures statements { let request = statements_request contexts.now
        (with_context context.now (without besides.now options.now)) in
        IfOk result (λ _. (s : Statement) → Means request s → IsStatement s) }
    ensures not_built { let request = statements_request contexts.now
        (with_context context.now (without besides.now options.now)) in
        IsErrOf result FlatFault.NotBuilt → IsFlat request → ⊥ }
{
    match chosen_statements(alloc, contexts, context, options, besides) {
        Ok(quads) => Ok(TextQuads::from_vec(quads)),
        Err(fault) => Err(fault),
    }
}
