//! The fields of options, one by one.

ghost use Rattle.std.specs.Prelude.{◌≡◌, true, Some, IfOk, codes};
ghost use Rattle.json_tree.specs.Trees.{is_lawful};
ghost use Rattle.proof_options.specs.declared.fault.Field.TheVariants.{Proof, ProofValue};
ghost use Rattle.proof_options.specs.Shape.{named, suite_name, IsAbsent, IsObject, IsStampIfAny, IsText, IsTheText};
ghost use Rattle.proof_options.specs.Parts.{IsExpiry};
ghost use Rattle.proof_options.specs.Internal.Judging.{Judges, Looks, value_rule};

use crate::fault::{Field, OptionFault, Suite};
use crate::instants::read_stamp;
use crate::stamps::Stamp;
use base_types::Text;
use json_tree::Tree;
use std::alloc::Global;

/// Where options stand: by themselves, or in a secured document, with a proof value.
#[derive(Clone, Copy)]
pub(crate) enum Standing {
    Alone,
    Secured,
}

/// What is kept of options that have their shape.
#[derive(Drop)]
pub(crate) struct Seen {
    pub method: Text,
    pub expires: Option<Stamp>,
}

fn name_of(suite: Suite) -> &'static str
    ensures { result.now ≡ suite_name suite }
{
    match suite {
        Suite::Selective => "ecdsa-sd-2023",
        Suite::Whole => "ecdsa-rdfc-2019",
    }
}

fn object(tree: &Tree) -> Result<(), OptionFault>
    ensures { Judges (IsObject (Some tree.now)) Proof result }
{
    match tree.as_object() {
        Some(_) => Ok(()),
        None => Err(OptionFault::Bad(Field::Proof)),
    }
}

fn nothing_at(tree: &Tree, name: &str, field: Field) -> Result<(), OptionFault>
    requires { is_lawful tree.now ≡ true }
    ensures { Judges (IsAbsent (named name.now (Some tree.now))) field result }
{
    match tree.get(name) {
        Some(_) => Err(OptionFault::Bad(field)),
        None => Ok(()),
    }
}

fn some_text_at(tree: &Tree, name: &str, field: Field) -> Result<(), OptionFault>
    requires { is_lawful tree.now ≡ true }
    ensures { Judges (IsText (named name.now (Some tree.now))) field result }
{
    match tree.get_text(name) {
        Some(_) => Ok(()),
        None => Err(OptionFault::Bad(field)),
    }
}

/// A copy of the text at a name.
pub(crate) fn text_at(
    alloc: Global,
    tree: &Tree,
    name: &str,
    field: Field,
) -> Result<Text, OptionFault>
    requires { is_lawful tree.now ≡ true }
    ensures judged { Judges (IsText (named name.now (Some tree.now))) field result }
    ensures text { IfOk result (λ t. IsTheText t (named name.now (Some tree.now))) }
{
    match tree.get_text(name) {
        Some(text) => Ok(Text::from_str(alloc, text.as_str())?),
        None => Err(OptionFault::Bad(field)),
    }
}

fn this_text_at(tree: &Tree, name: &str, wanted: &str, field: Field) -> Result<(), OptionFault>
    requires { is_lawful tree.now ≡ true }
    ensures { Judges (IsTheText wanted.now (named name.now (Some tree.now))) field result }
{
    match tree.get_text(name) {
        Some(text) => {
            if text.as_str() == wanted {
                Ok(())
            } else {
                Err(OptionFault::Bad(field))
            }
        }
        None => Err(OptionFault::Bad(field)),
    }
}

/// The stamp that a value is.
fn stamp_in(alloc: Global, value: &Tree, field: Field) -> Result<Option<Stamp>, OptionFault>
    ensures judged { Judges (IsStampIfAny (Some value.now)) field result }
    ensures stamp { IfOk result (IsExpiry (Some value.now)) }
{
    let Some(text) = value.as_text() else {
        return Err(OptionFault::Bad(field));
    };
    match read_stamp(alloc, text.as_str())? {
        Some(stamp) => Ok(Some(stamp)),
        None => Err(OptionFault::Bad(field)),
    }
}

/// The stamp at a name, where anything is there.
fn stamp_at(
    alloc: Global,
    tree: &Tree,
    name: &str,
    field: Field,
) -> Result<Option<Stamp>, OptionFault>
    requires { is_lawful tree.now ≡ true }
    ensures judged { Judges (IsStampIfAny (named name.now (Some tree.now))) field result }
    ensures stamp { IfOk result (IsExpiry (named name.now (Some tree.now))) }
{
    match tree.get(name) {
        Some(value) => stamp_in(alloc, value, field),
        None => Ok(None),
    }
}

fn proof_value(tree: &Tree, standing: Standing) -> Result<(), OptionFault>
    requires { is_lawful tree.now ≡ true }
    ensures { Judges (value_rule standing (named (codes "proofValue") (Some tree.now)))
        ProofValue result }
{
    match standing {
        Standing::Alone => nothing_at(tree, "proofValue", Field::ProofValue),
        Standing::Secured => some_text_at(tree, "proofValue", Field::ProofValue),
    }
}

/// All fields in their order, up to the first that is bad.
pub(crate) fn look_over(
    alloc: Global,
    tree: &Tree,
    suite: Suite,
    standing: Standing,
) -> Result<Seen, OptionFault>
    requires { is_lawful tree.now ≡ true }
    ensures { Looks suite standing tree.now result }
{
    object(tree)?;
    nothing_at(tree, "@context", Field::Context)?;
    this_text_at(tree, "type", "DataIntegrityProof", Field::ProofType)?;
    this_text_at(tree, "cryptosuite", name_of(suite), Field::Cryptosuite)?;
    drop(stamp_at(alloc, tree, "created", Field::Created)?);
    let expires = stamp_at(alloc, tree, "expires", Field::Expires)?;
    let method = text_at(alloc, tree, "verificationMethod", Field::VerificationMethod)?;
    some_text_at(tree, "proofPurpose", Field::ProofPurpose)?;
    proof_value(tree, standing)?;
    Ok(Seen { method, expires })
}
