//! Members of documents and of proof options (Data Integrity 1.0, proofs).

ghost use Rattle.std.specs.Prelude.{◌≡◌, true};
ghost use Rattle.std.specs.Option.{option_copied};
ghost use Rattle.json_tree.specs.Places.{look};
ghost use Rattle.json_tree.specs.Trees.{is_lawful};
ghost use Rattle.vc_session.specs.Requests.{at};
ghost use Rattle.vc_session.specs.Internal.RequestMembers.{has_form, has_text, lacks, method_in, text_under};

use json_tree::{Text, Tree, member};

/// The value of the member of that name.
pub(crate) fn value_at<'a>(tree: &'a Tree, key: &str) -> Option<&'a Tree>
    requires { is_lawful tree.now ≡ true }
    ensures { option_copied result ≡ look (at key.now) tree.now }
{
    member(tree.as_object()?, key)
}

/// The text of the member of that name.
pub(crate) fn text_at<'a>(tree: &'a Tree, key: &str) -> Option<&'a Text>
    requires { is_lawful tree.now ≡ true }
    ensures { option_copied result ≡ text_under key.now tree.now }
{
    value_at(tree, key)?.as_text()
}

/// Whether there is no member of that name.
pub(crate) fn lacks(tree: &Tree, key: &str) -> bool
    requires { is_lawful tree.now ≡ true }
    ensures { result ≡ lacks key.now tree.now }
{
    value_at(tree, key).is_none()
}

/// Whether the member of that name has this text.
fn has_text(tree: &Tree, key: &str, text: &str) -> bool
    requires { is_lawful tree.now ≡ true }
    ensures { result ≡ has_text key.now text.now tree.now }
{
    match text_at(tree, key) {
        Some(found) => found.as_str() == text,
        None => false,
    }
}

/// Whether proof options have the right type and suite, a purpose, no time and no context of their own.
fn has_form(options: &Tree) -> bool
    requires { is_lawful options.now ≡ true }
    ensures { result ≡ has_form options.now }
{
    has_text(options, "type", "DataIntegrityProof")
        && has_text(options, "cryptosuite", "ecdsa-sd-2023")
        && text_at(options, "proofPurpose").is_some()
        && lacks(options, "created")
        && lacks(options, "expires")
        && lacks(options, "@context")
}

/// The verification method of proof options of that form; whether they have a value is not looked at.
pub(crate) fn method_of(options: &Tree) -> Option<&Text>
    requires { is_lawful options.now ≡ true }
    ensures { option_copied result ≡ method_in options.now }
{
    if has_form(options) {
        text_at(options, "verificationMethod")
    } else {
        None
    }
}
