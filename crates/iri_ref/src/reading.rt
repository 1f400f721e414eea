//! Reading a text: where its components stand, and whether it is an absolute IRI.
ghost use Rattle.std.specs.Prelude.{◌≡◌, ◌↔◌, ◌<◌, ◌^◌, ◌+◌, option_map, length, IsTrue, IfErr, IfOk, OnOk, None, Some};
ghost use Rattle.std.specs.Option.{option_copied};
ghost use Rattle.iri_ref.specs.Characters.{first_forbidden};
ghost use Rattle.iri_ref.specs.Components.{IsAbsolute, components, is_absolute, length_with, recompose, span_after, spans};
ghost use Rattle.iri_ref.specs.Internal.Pieces.{texts};

use crate::fault::BadAt;
use crate::places::{Parts, Span};
use crate::splitting::{Pieces, is_forbidden_byte, pieces_of, split_scheme};

/// The byte of the first forbidden character, where there is one.
pub(crate) fn forbidden_at(text: &str) -> Option<usize>
    ensures first { result ≡ first_forbidden text.now }
    ensures fits { length text.now < 2 ^ 64 }
{
    text.as_bytes()
        .iter()
        .position(|byte| is_forbidden_byte(*byte))
}

fn span_at(at: usize, mark: usize, piece: &str) -> Span
    requires { at + mark + length piece.now < 2 ^ 64 }
    ensures { result ≡ span_after at mark piece.now }
{
    let from = at + mark;
    Span {
        from: from as u64,
        to: (from + piece.len()) as u64,
    }
}

/// The span of a component after its mark, where there is one, and the byte after both.
fn span_from(at: usize, mark: usize, piece: Option<&str>) -> (Option<Span>, usize)
    requires { at + length_with mark (option_copied piece) < 2 ^ 64 }
    ensures span { result.0 ≡ option_map (span_after at mark) (option_copied piece.entry) }
    ensures end { result.1 ≡ at + length_with mark (option_copied piece.entry) }
{
    match piece {
        Some(text) => (Some(span_at(at, mark, text)), at + mark + text.len()),
        None => (None, at),
    }
}

/// The span of the scheme, where there is one, and the byte after its colon.
fn scheme_span(piece: Option<&str>) -> (Option<Span>, usize)
    requires { length_with 1 (option_copied piece) < 2 ^ 64 }
    ensures span { result.0 ≡ option_map (span_after 0 0) (option_copied piece.entry) }
    ensures end { result.1 ≡ length_with 1 (option_copied piece.entry) }
{
    match piece {
        Some(text) => (Some(span_at(0, 0, text)), 1 + text.len()),
        None => (None, 0),
    }
}

/// The spans of the pieces in the text that they make.
#[tactic(auto, using(crate::proofs::Lengths::length_recompose), unfolding(crate::specs::Components::spans))]
fn parts_of(pieces: &Pieces<'_>) -> Parts
    requires { length (recompose (texts pieces.now)) < 2 ^ 64 }
    ensures { result ≡ spans (texts pieces.now) }
{
    let (scheme, at) = scheme_span(pieces.scheme);
    let (authority, at) = span_from(at, 2, pieces.authority);
    let path = span_at(at, 0, pieces.path);
    let at = at + pieces.path.len();
    let (query, at) = span_from(at, 1, pieces.query);
    let (fragment, _) = span_from(at, 1, pieces.fragment);
    Parts {
        scheme,
        authority,
        path,
        query,
        fragment,
    }
}

/// Where the components of `text` stand. It takes no memory.
///
/// `BadAt` exactly where `text` holds a character that no IRI holds, with the byte of the first.
/// RFC 3986, section 3 and appendix B.
pub fn parse(text: &str) -> Result<Parts, BadAt>
    ensures places { IfOk result (λ parts. parts ≡ spans (components text.now)) }
    ensures allowed { OnOk result (first_forbidden text.now ≡ None) }
    ensures refused { IfErr result (λ bad. first_forbidden text.now ≡ Some bad.at) }
{
    if let Some(at) = forbidden_at(text) {
        return Err(BadAt { at: at as u64 });
    }
    Ok(parts_of(&pieces_of(text)))
}

/// Whether `text` has a scheme and no forbidden character. It takes no memory.
pub fn is_absolute(text: &str) -> bool
    ensures exact { IsTrue result ↔ IsAbsolute text.now }
    ensures test { result ≡ is_absolute text.now }
{
    let (scheme, _) = split_scheme(text);
    scheme.is_some() && forbidden_at(text).is_none()
}
