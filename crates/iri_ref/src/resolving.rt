//! Resolution: what a reference means at a base. RFC 3986, section 5.2.
ghost use Rattle.std.specs.Prelude.{◌≡◌, ◌++◌, string_bytes, IfOk, IfErr, None, OnOk};
ghost use Rattle.std.specs.Option.{option_copied};
ghost use Rattle.iri_ref.specs.Characters.{first_forbidden};
ghost use Rattle.iri_ref.specs.Components.{IsAbsolute, recompose, with_mark};
ghost use Rattle.iri_ref.specs.Internal.Pieces.{texts};
ghost use Rattle.iri_ref.specs.Resolution.{directory, is_rooted, merge, resolution, target, target_path};
ghost use Rattle.iri_ref.specs.Faults.{IsCause};

use crate::dots::path_without_dots;
use crate::fault::IriFault;
use crate::reading::forbidden_at;
use crate::splitting::{Pieces, pieces_of};
use base_types::{Memory, Text};
use std::alloc::Global;

/// The path up to its last slash, and with it.
fn directory_of(path: &str) -> &str
    ensures { result.now ≡ directory path.now }
{
    match path.rfind('/') {
        Some(at) => {
            let (front, _) = path.split_at(at + 1);
            front
        }
        None => "",
    }
}

/// A relative path in place of the base's last segment. RFC 3986, section 5.2.3.
#[tactic(auto, unfolding(crate::specs::Resolution::merge))]
fn merge_path(alloc: Global, base: &Pieces<'_>, path: &str) -> Result<String, Memory>
    ensures { IfOk result (λ s. string_bytes s ≡ merge (texts base.now) path.now) }
{
    let mut whole = String::new(alloc);
    if base.authority.is_some() && base.path.is_empty() {
        whole.push_str("/")?;
    } else {
        whole.push_str(directory_of(base.path))?;
    }
    whole.push_str(path)?;
    Ok(whole)
}

/// The path of the target. RFC 3986, section 5.2.2.
#[tactic(auto, unfolding(crate::specs::Resolution::target_path))]
fn path_of_target(
    alloc: Global,
    base: &Pieces<'_>,
    reference: &Pieces<'_>,
) -> Result<String, Memory>
    ensures { IfOk result (λ s.
        string_bytes s ≡ target_path (texts base.now) (texts reference.now)) }
{
    let stands_alone = reference.scheme.is_some() || reference.authority.is_some();
    if stands_alone || is_rooted_path(reference.path) {
        return path_without_dots(alloc, reference.path);
    }
    if reference.path.is_empty() {
        return Ok(String::from_str(alloc, base.path)?);
    }
    let whole = merge_path(alloc, base, reference.path)?;
    path_without_dots(alloc, whole.as_str())
}

fn is_rooted_path(path: &str) -> bool
    ensures { result ≡ is_rooted path.now }
{
    match path.as_bytes() {
        [] => false,
        [first, ..] => *first == b'/',
    }
}

/// The components of the target, around its path. RFC 3986, section 5.2.2.
#[tactic(auto, unfolding(crate::specs::Resolution::target))]
fn target_of<'a>(base: &Pieces<'a>, reference: &Pieces<'a>, path: &'a str) -> Pieces<'a>
    requires { path.now ≡ target_path (texts base.now) (texts reference.now) }
    ensures { texts result ≡ target (texts base.now) (texts reference.now) }
{
    let Pieces {
        authority,
        query,
        fragment,
        ..
    } = *reference;
    if reference.scheme.is_some() {
        return Pieces {
            scheme: reference.scheme,
            authority,
            path,
            query,
            fragment,
        };
    }
    let scheme = base.scheme;
    if authority.is_some() {
        return Pieces {
            scheme,
            authority,
            path,
            query,
            fragment,
        };
    }
    let authority = base.authority;
    if reference.path.is_empty() && query.is_none() {
        return Pieces {
            scheme,
            authority,
            path,
            query: base.query,
            fragment,
        };
    }
    Pieces {
        scheme,
        authority,
        path,
        query,
        fragment,
    }
}

/// Puts a component after its mark at the end of `text`, where there is one.
fn push_marked(text: &mut String, mark: &str, piece: Option<&str>) -> Result<(), Memory>
    ensures { OnOk result (string_bytes text.new
        ≡ string_bytes text.old ++ with_mark mark.now (option_copied piece.entry)) }
{
    if let Some(piece) = piece {
        text.push_str(mark)?;
        text.push_str(piece)?;
    }
    Ok(())
}

/// The text that the components make. RFC 3986, section 5.3.
#[tactic(auto, unfolding(crate::specs::Components::recompose))]
fn recompose_text(alloc: Global, pieces: &Pieces<'_>) -> Result<String, Memory>
    ensures { IfOk result (λ s. string_bytes s ≡ recompose (texts pieces.now)) }
{
    let mut text = String::new(alloc);
    if let Some(scheme) = pieces.scheme {
        text.push_str(scheme)?;
        text.push_str(":")?;
    }
    push_marked(&mut text, "//", pieces.authority)?;
    text.push_str(pieces.path)?;
    push_marked(&mut text, "?", pieces.query)?;
    push_marked(&mut text, "#", pieces.fragment)?;
    Ok(text)
}

/// The text of the target of `reference` at `base`. RFC 3986, sections 5.2 and 5.3.
fn text_of_target(alloc: Global, base: &str, reference: &str) -> Result<Text, Memory>
    ensures { IfOk result (λ iri. iri ≡ resolution base.now reference.now) }
{
    let base = pieces_of(base);
    let reference = pieces_of(reference);
    let path = path_of_target(alloc, &base, &reference)?;
    let text = recompose_text(alloc, &target_of(&base, &reference, path.as_str()))?;
    Ok(Text::from_string(text))
}

/// What `reference` means at `base`, which is absolute; the answer is absolute too. RFC 3986, section
/// 5.2, in its strict form: a reference with a scheme stands for itself, but for its dot segments.
///
/// `BadIri` exactly where `reference` holds a character that no IRI holds, with the byte of the
/// first.
pub fn resolve(alloc: Global, base: &str, reference: &str) -> Result<Text, IriFault>
    requires { IsAbsolute base.now }
    ensures meaning { IfOk result (λ iri. iri ≡ resolution base.now reference.now) }
    ensures absolute { IfOk result (λ iri. IsAbsolute iri) }
    ensures allowed { OnOk result (first_forbidden reference.now ≡ None) }
    ensures refused { IfErr result (IsCause reference.now) }
{
    if let Some(at) = forbidden_at(reference) {
        return Err(IriFault::BadIri(at as u64));
    }
    Ok(text_of_target(alloc, base, reference)?)
}
