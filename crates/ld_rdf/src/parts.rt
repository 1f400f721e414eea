//! The parts of a flat request: its contexts, its document, and their members.

ghost use Rattle.std.specs.Prelude.{◌≡◌, true, option_map, option_and_then, IfSome};
ghost use Rattle.std.specs.Option.{option_copied};
ghost use Rattle.std.specs.List.{list_all};
ghost use Rattle.json_tree.specs.Places.{members_of};
ghost use Rattle.json_tree.specs.Trees.{is_lawful, each_next, is_before, AreLawful};
ghost use Rattle.ld_rdf.specs.Internal.Parts.{only_of, two_in, context_value, supplied_context, is_definition, member_text, text_beside};

use crate::plain::{is_plain_iri, is_plain_term};
use json_tree::{Member, Text, Tree, member};

/// The values of `contexts` and `document`, where the request has these two members and no other.
pub fn two_members(request: &Tree) -> Option<(&Tree, &Tree)>
    requires { is_lawful request.now ≡ true }
    ensures two { option_map (λ p. (p.0.now, p.1.now)) result
        ≡ option_and_then two_in (members_of request.now) }
    ensures lawful { IfSome result (λ p. (is_lawful p.0.now ≡ true) × (is_lawful p.1.now ≡ true)) }
{
    match request.as_object()? {
        [contexts, document] => {
            if contexts.key.as_str() == "contexts" && document.key.as_str() == "document" {
                Some((&contexts.value, &document.value))
            } else {
                None
            }
        }
        _ => None,
    }
}

/// The member of an object that has no other.
fn only_member(tree: &Tree) -> Option<&Member>
    requires { is_lawful tree.now ≡ true }
    ensures only { option_copied result ≡ only_of tree.now }
    ensures lawful { IfSome result (λ m. is_lawful m.now.value ≡ true) }
{
    match tree.as_object()? {
        [lone] => Some(lone),
        _ => None,
    }
}

/// The value of the lone member `@context`.
fn context_value(tree: &Tree) -> Option<&Tree>
    requires { is_lawful tree.now ≡ true }
    ensures value { option_copied result ≡ context_value tree.now }
    ensures lawful { IfSome result (λ t. is_lawful t.now ≡ true) }
{
    let lone = only_member(tree)?;
    if lone.key.as_str() == "@context" {
        Some(&lone.value)
    } else {
        None
    }
}

/// The name of the one supplied context, and its terms.
pub fn supplied_context(contexts: &Tree) -> Option<(&Text, &[Member])>
    requires { is_lawful contexts.now ≡ true }
    ensures context { option_map (λ p. (p.0.now, p.1.now)) result ≡ supplied_context contexts.now }
    ensures lawful { IfSome result (λ p. AreLawful p.1.now) }
{
    let lone = only_member(contexts)?;
    let context = context_value(&lone.value)?;
    let terms = context.as_object()?;
    Some((&lone.key, terms))
}

/// The text of the member of that name.
pub fn member_text<'a>(key: &str, members: &'a [Member]) -> Option<&'a Text>
    requires { each_next (λ m n. is_before m.key n.key) members.now ≡ true }
    ensures { option_copied result ≡ member_text key.now members.now }
{
    member(members, key)?.as_text()
}

/// The text of the member of that name, where it is not the one that is left out.
pub fn text_beside<'a>(besides: &str, key: &str, members: &'a [Member]) -> Option<&'a Text>
    requires { each_next (λ m n. is_before m.key n.key) members.now ≡ true }
    ensures { option_copied result ≡ text_beside besides.now key.now members.now }
{
    if key == besides {
        None
    } else {
        member_text(key, members)
    }
}

/// Whether each member is a plain term with a plain IRI.
pub fn are_definitions(terms: &[Member]) -> bool
    ensures { result ≡ list_all is_definition terms.now }
{
    terms.iter().all(|term| is_definition(term))
}

fn is_definition(term: &Member) -> bool
    ensures { result ≡ is_definition term.now }
{
    match term.value.as_text() {
        Some(mapping) => is_plain_term(term.key.as_str()) && is_plain_iri(mapping.as_str()),
        None => false,
    }
}
