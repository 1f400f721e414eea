//! Taking apart requests for issuing and for verifying.

ghost use Rattle.std.specs.Prelude.{◌≡◌, ◌↔◌, true, [], Some, IfOk, IfSome, IsErrOf, IsTrue, option_map};
ghost use Rattle.std.specs.Str.{bytes_eq};
ghost use Rattle.json_tree.specs.declared.tree.Tree.{Tree as AnyTree};
ghost use Rattle.json_tree.specs.declared.tree.Tree.TheVariants as v;
ghost use Rattle.json_tree.specs.Trees.{is_in_range, is_lawful};
ghost use Rattle.vc_session.specs.Internal.Drafts.{IsObject, IsPrintable};
ghost use Rattle.vc_session.specs.Internal.RequestMembers.{IsIssueRead, five_of, issue_names, proof_parts, three_of};
ghost use Rattle.vc_session.specs.Requests.{IsFlatIssue, IsFlatVerify, issue_object, whole_document};
ghost use Rattle.vc_session.specs.Internal.Tasks.{IsIssueTask, IsVerifyTask};

use crate::keys::key_table;
use crate::options::{lacks, method_of, text_at, value_at};
use crate::tasks::{IssueTask, VerifyTask};
use json_tree::{Member, Tree};
use key_device::KeyTable;
use ld_rdf::{FlatFault, flat_document, flat_options};
use nquads::{Text, TextQuads};
use std::alloc::Global;

/// The members of a request for issuing.
#[derive(Clone, Copy)]
struct IssueMembers<'a> {
    contexts: &'a Tree,
    document: &'a Tree,
    keys: &'a Tree,
    mandatory: &'a Tree,
    options: &'a Tree,
}

/// The members of a request for verifying.
#[derive(Clone, Copy)]
struct VerifyMembers<'a> {
    contexts: &'a Tree,
    document: &'a Tree,
    keys: &'a Tree,
}

/// What is read of a request for issuing before its document and its options are taken out of it.
#[derive(Drop)]
pub(crate) struct IssueRead {
    pub quads: TextQuads,
    pub option_quads: TextQuads,
    pub method: Text,
    pub keys: KeyTable,
}

/// Whether the member has that name.
fn is_named(member: &Member, name: &str) -> bool
    ensures { result ≡ bytes_eq member.now.key name.now }
{
    member.key.as_str() == name
}

/// The members of a request for issuing, where it has these and no other.
fn issue_members(request: &Tree) -> Option<IssueMembers<'_>>
    requires { is_lawful request.now ≡ true }
    ensures five { option_map (λ m.
        (m.contexts.now, m.document.now, m.keys.now, m.mandatory.now, m.options.now)) result
        ≡ five_of request.now }
    ensures lawful { IfSome result (λ m. (is_lawful m.contexts.now ≡ true)
        × (is_lawful m.document.now ≡ true) × (is_lawful m.options.now ≡ true)) }
{
    match request.as_object()? {
        [contexts, document, keys, mandatory, options] => {
            if is_named(contexts, "contexts")
                && is_named(document, "document")
                && is_named(keys, "keys")
                && is_named(mandatory, "mandatory")
                && is_named(options, "options")
            {
                Some(IssueMembers {
                    contexts: &contexts.value,
                    document: &document.value,
                    keys: &keys.value,
                    mandatory: &mandatory.value,
                    options: &options.value,
                })
            } else {
                None
            }
        }
        _ => None,
    }
}

/// The members of a request for verifying, where it has these and no other.
fn verify_members(request: &Tree) -> Option<VerifyMembers<'_>>
    requires { is_lawful request.now ≡ true }
    ensures three { option_map (λ m. (m.contexts.now, m.document.now, m.keys.now)) result
        ≡ three_of request.now }
    ensures lawful { IfSome result (λ m. (is_lawful m.contexts.now ≡ true)
        × (is_lawful m.document.now ≡ true)) }
{
    match request.as_object()? {
        [contexts, document, keys] => {
            if is_named(contexts, "contexts")
                && is_named(document, "document")
                && is_named(keys, "keys")
            {
                Some(VerifyMembers {
                    contexts: &contexts.value,
                    document: &document.value,
                    keys: &keys.value,
                })
            } else {
                None
            }
        }
        _ => None,
    }
}

/// Whether the pointers are the one empty pointer, by which every statement is mandatory.
fn is_whole_document(pointers: &Tree) -> bool
    ensures { IsTrue result ↔ (pointers.now ≡ whole_document) }
{
    match pointers {
        Tree::List(items) => match items.as_slice() {
            [pointer] => pointer.at == 0 && is_empty_text(&pointer.value),
            _ => false,
        },
        _ => false,
    }
}

/// Whether the value is the empty text.
fn is_empty_text(tree: &Tree) -> bool
    ensures { IsTrue result ↔ (tree.now ≡ v.Text []) }
{
    match tree {
        Tree::Text(text) => text.len() == 0,
        _ => false,
    }
}

/// The name of the context that the document takes, and the verification method of the options, where the
/// document has no proof and the options have no value.
fn issue_names<'a>(document: &'a Tree, options: &'a Tree) -> Option<(&'a Text, &'a Text)>
    requires document { is_lawful document.now ≡ true }
    requires options { is_lawful options.now ≡ true }
    ensures { option_map (λ p. (p.0.now, p.1.now)) result
        ≡ issue_names document.now options.now }
{
    if lacks(document, "proof") && lacks(options, "proofValue") {
        let name = text_at(document, "@context")?;
        let method = method_of(options)?;
        Some((name, method))
    } else {
        None
    }
}

/// What is read of a flat request for issuing.
///
/// # Errors
///
/// `NotBuilt` exactly where the request is no flat request for issuing.
fn read_issue(alloc: Global, request: &Tree) -> Result<IssueRead, FlatFault>
    requires { is_lawful request.now ≡ true }
    ensures ok { IfOk result (λ t. IsIssueRead request.now t) }
    ensures not_built { IsErrOf result FlatFault.NotBuilt → IsFlatIssue request.now → ⊥ }
{
    let Some(members) = issue_members(request) else {
        return Err(FlatFault::NotBuilt);
    };
    if !is_whole_document(members.mandatory) {
        return Err(FlatFault::NotBuilt);
    }
    let Some((name, method)) = issue_names(members.document, members.options) else {
        return Err(FlatFault::NotBuilt);
    };
    let keys = key_table(alloc, members.keys)?;
    let quads = flat_document(alloc, members.contexts, members.document, "proof")?;
    let option_quads = flat_options(alloc, members.contexts, name, members.options, "proofValue")?;
    let method = Text::from_str(alloc, method.as_str())?;
    Ok(IssueRead {
        quads,
        option_quads,
        method,
        keys,
    })
}

/// The document and the options, taken out of a request for issuing.
fn take_apart(request: Tree) -> Option<(Tree, Tree)>
    ensures { (c d k m o : AnyTree) → request ≡ issue_object c d k m o
        → result ≡ Some (d, o) }
{
    let Tree::Object(mut members) = request else {
        return None;
    };
    if members.len() != 5 {
        return None;
    }
    let options = members.remove(4);
    let document = members.remove(1);
    Some((document.value, options.value))
}

/// The task of a flat request for issuing.
///
/// # Errors
///
/// `NotBuilt` exactly where the request is no flat request for issuing.
pub(crate) fn issue_task(alloc: Global, request: Tree) -> Result<IssueTask, FlatFault>
    requires lawful { is_lawful request ≡ true }
    requires in_range { is_in_range request ≡ true }
    ensures ok { IfOk result (λ t. IsIssueTask request t) }
    // The document and the options are objects, and hold no version number.
    ensures objects { IfOk result (λ t. IsObject t.document × IsObject t.options) }
    ensures printable { IfOk result (λ t. IsPrintable t.document × IsPrintable t.options) }
    ensures not_built { IsErrOf result FlatFault.NotBuilt → IsFlatIssue request → ⊥ }
{
    match read_issue(alloc, &request) {
        Ok(read) => match take_apart(request) {
            Some((document, options)) => Ok(IssueTask {
                document,
                options,
                quads: read.quads,
                option_quads: read.option_quads,
                method: read.method,
                keys: read.keys,
            }),
            None => Err(FlatFault::NotBuilt),
        },
        Err(fault) => Err(fault),
    }
}

/// A document's proof, the context that the document takes, and the proof's verification method and value.
#[derive(Clone, Copy)]
struct ProofParts<'a> {
    proof: &'a Tree,
    name: &'a Text,
    method: &'a Text,
    value: &'a Text,
}

/// These parts of a document that has a proof with a value.
#[tactic(auto, using(crate::proofs::Looks::found_lawful))]
fn proof_parts(document: &Tree) -> Option<ProofParts<'_>>
    requires { is_lawful document.now ≡ true }
    ensures parts { option_map (λ p. (p.proof.now, p.name.now, p.method.now, p.value.now)) result
        ≡ proof_parts document.now }
    ensures lawful { IfSome result (λ p. is_lawful p.proof.now ≡ true) }
{
    let proof = value_at(document, "proof")?;
    let name = text_at(document, "@context")?;
    let method = method_of(proof)?;
    let value = text_at(proof, "proofValue")?;
    Some(ProofParts {
        proof,
        name,
        method,
        value,
    })
}

/// The task of a flat request for verifying.
///
/// # Errors
///
/// `NotBuilt` exactly where the request is no flat request for verifying.
pub(crate) fn verify_task(alloc: Global, request: &Tree) -> Result<VerifyTask, FlatFault>
    requires { is_lawful request.now ≡ true }
    ensures ok { IfOk result (λ t. IsVerifyTask request.now t) }
    ensures not_built { IsErrOf result FlatFault.NotBuilt → IsFlatVerify request.now → ⊥ }
{
    let Some(members) = verify_members(request) else {
        return Err(FlatFault::NotBuilt);
    };
    let Some(parts) = proof_parts(members.document) else {
        return Err(FlatFault::NotBuilt);
    };
    let keys = key_table(alloc, members.keys)?;
    let quads = flat_document(alloc, members.contexts, members.document, "proof")?;
    let option_quads = flat_options(
        alloc,
        members.contexts,
        parts.name,
        parts.proof,
        "proofValue",
    )?;
    let method = Text::from_str(alloc, parts.method.as_str())?;
    let value = Text::from_str(alloc, parts.value.as_str())?;
    Ok(VerifyTask {
        quads,
        option_quads,
        method,
        value,
        keys,
    })
}
