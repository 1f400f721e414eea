//! Options looked at, and a secured document split.

ghost use Rattle.std.specs.Prelude.{◌≡◌, true, IfOk};
ghost use Rattle.json_tree.specs.Trees.{is_lawful};
ghost use Rattle.json_tree.specs.WellFormed.{IsWellFormed};
ghost use Rattle.proof_options.specs.declared.fault.Suite.TheVariants.{Selective};
ghost use Rattle.proof_options.specs.Outcomes.{Checks, Splits};

use crate::fault::{Field, OptionFault, Suite};
use crate::fields::{Seen, Standing, look_over, text_at};
use crate::proofs::{Options, SplitProof};
use json_tree::Tree;
use std::alloc::Global;

/// Options of the suite, by themselves.
///
/// # Errors
///
/// - `Bad` with the first field, in the order of `Field`, that is not as it must be: the options are
///   an object without `@context` and `proofValue`, `type` is `DataIntegrityProof`, `cryptosuite`
///   that of the suite, `created` and `expires` are stamps where they are there, and
///   `verificationMethod` and `proofPurpose` are texts. Other members are free.
/// - `Memory`: there is no memory for the copy.
pub fn check_as(alloc: Global, options: &Tree, suite: Suite) -> Result<Options, OptionFault>
    requires { is_lawful options.now ≡ true }
    ensures { Checks suite options.now result }
{
    let seen = look_over(alloc, options, suite, Standing::Alone)?;
    let tree = options.copy(alloc)?;
    let Seen { method, expires } = seen;
    Ok(Options {
        tree,
        method,
        expires,
    })
}

/// Options of `ecdsa-sd-2023`, by themselves: `check_as` of `Suite::Selective`.
pub fn check(alloc: Global, options: &Tree) -> Result<Options, OptionFault>
    requires { is_lawful options.now ≡ true }
    ensures { Checks Selective options.now result }
{
    check_as(alloc, options, Suite::Selective)
}

/// A document that is secured with a proof of the suite, taken apart: all but its `proof`, the proof
/// without its `proofValue`, and this value.
///
/// # Errors
///
/// - `Bad` with the first field, in the order of `Field`, that is not as it must be: `proof` stands
///   in the document and is an object as `check_as` wants options, but for a text as `proofValue`.
/// - `Memory`: there is no memory for the parts.
pub fn split_as(alloc: Global, document: &Tree, suite: Suite) -> Result<SplitProof, OptionFault>
    requires { is_lawful document.now ≡ true }
    ensures outcome { Splits suite document.now result }
    ensures body { IfOk result (λ s. is_lawful s.body ≡ true) }
    ensures options { IfOk result (λ s. is_lawful s.options.tree ≡ true) }
    ensures well_formed_body { IsWellFormed document.now → IfOk result (λ s. IsWellFormed s.body) }
    ensures well_formed_options { IsWellFormed document.now
        → IfOk result (λ s. IsWellFormed s.options.tree) }
{
    let Some(proof) = document.get("proof") else {
        return Err(OptionFault::Bad(Field::Proof));
    };
    let seen = look_over(alloc, proof, suite, Standing::Secured)?;
    let value = text_at(alloc, proof, "proofValue", Field::ProofValue)?;
    let proof_copy = proof.copy(alloc)?;
    let tree = proof_copy.without("proofValue");
    let document_copy = document.copy(alloc)?;
    let body = document_copy.without("proof");
    let Seen { method, expires } = seen;
    let options = Options {
        tree,
        method,
        expires,
    };
    Ok(SplitProof {
        body,
        options,
        value,
    })
}

/// A document that is secured by `ecdsa-sd-2023`, taken apart: `split_as` of `Suite::Selective`.
pub fn split(alloc: Global, document: &Tree) -> Result<SplitProof, OptionFault>
    requires { is_lawful document.now ≡ true }
    ensures outcome { Splits Selective document.now result }
    ensures body { IfOk result (λ s. is_lawful s.body ≡ true) }
    ensures options { IfOk result (λ s. is_lawful s.options.tree ≡ true) }
    ensures well_formed_body { IsWellFormed document.now → IfOk result (λ s. IsWellFormed s.body) }
    ensures well_formed_options { IsWellFormed document.now
        → IfOk result (λ s. IsWellFormed s.options.tree) }
{
    split_as(alloc, document, Suite::Selective)
}
