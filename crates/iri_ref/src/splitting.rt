//! A text's components, as pieces of it. RFC 3986, section 3 and appendix B.
ghost use Rattle.std.specs.Prelude.{◌≡◌, ◌==◌, ◌<◌, drop, length, option_map, position, IfSome, if◌then◌else◌, MatchOption, Some, None, true, false};
ghost use Rattle.std.specs.Option.{option_copied};
ghost use Rattle.std.specs.List.{list_all};
ghost use Rattle.iri_ref.specs.Characters.{is_letter, is_scheme_character, is_scheme, is_forbidden};
ghost use Rattle.iri_ref.specs.Components.{before, after, around_colon, from, authority_of, has_authority, has_scheme, path_after_authority, relative_part, components};
ghost use Rattle.iri_ref.specs.Internal.Pieces.{texts};
ghost use Rattle.iri_ref.specs.Internal.Places.{colon_place};

/// The components of a text, each as it stands there.
#[derive(Clone, Copy)]
pub(crate) struct Pieces<'a> {
    pub scheme: Option<&'a str>,
    pub authority: Option<&'a str>,
    pub path: &'a str,
    pub query: Option<&'a str>,
    pub fragment: Option<&'a str>,
}

fn is_letter_byte(byte: u8) -> bool
    ensures { result ≡ is_letter byte }
{
    byte.is_ascii_alphabetic()
}

fn may_stand_in_scheme(byte: u8) -> bool
    ensures { result ≡ is_scheme_character byte }
{
    is_letter_byte(byte)
        || (48 <= byte && byte <= 57)
        || byte == b'+'
        || byte == b'-'
        || byte == b'.'
}

pub(crate) fn is_forbidden_byte(byte: u8) -> bool
    ensures { result ≡ is_forbidden byte }
{
    matches!(
        byte,
        0..=32 | b'<' | b'>' | b'"' | b'{' | b'}' | b'|' | b'\\' | b'^' | b'`'
    )
}

fn all_stand_in_scheme(bytes: &[u8]) -> bool
    ensures { result ≡ list_all is_scheme_character bytes.now }
{
    bytes.iter().all(|byte| may_stand_in_scheme(*byte))
}

fn is_scheme_text(text: &str) -> bool
    ensures { result ≡ is_scheme text.now }
{
    let bytes = text.as_bytes();
    if bytes.is_empty() {
        return false;
    }
    is_letter_byte(bytes[0]) && all_stand_in_scheme(bytes)
}

/// The text before the first `mark`, and the one after it, where there is one.
fn cut(text: &str, mark: char) -> (&str, Option<&str>)
    requires { mark < 128 }
    ensures front { result.0.now ≡ before mark text.now }
    ensures back { option_copied result.1 ≡ after mark text.now }
{
    match text.split_once(mark) {
        Some((head, tail)) => (head, Some(tail)),
        None => (text, None),
    }
}

/// The scheme, where there is one, and the text after its colon.
pub(crate) fn split_scheme(text: &str) -> (Option<&str>, &str)
    ensures front { option_copied result.0
        ≡ (if has_scheme text.now then Some (before 58 text.now) else None) }
    ensures back { result.1.now ≡ relative_part text.now }
{
    let (head, tail) = cut(text, ':');
    match tail {
        Some(tail) => {
            if is_scheme_text(head) {
                (Some(head), tail)
            } else {
                (None, text)
            }
        }
        None => (None, text),
    }
}

/// What follows `//`, where the text begins so.
fn after_slashes(text: &str) -> Option<&str>
    ensures { MatchOption result (has_authority text.now ≡ false) (λ rest.
        (has_authority text.now ≡ true) × (rest.now ≡ drop 2 text.now)) }
{
    match text.strip_prefix('/') {
        Some(rest) => rest.strip_prefix('/'),
        None => None,
    }
}

/// The text before the first slash, and the one from it on.
fn cut_before_slash(text: &str) -> (&str, &str)
    ensures front { result.0.now ≡ before 47 text.now }
    ensures back { result.1.now ≡ from 47 text.now }
{
    match text.find('/') {
        Some(at) => {
            let (front, back) = text.split_at(at);
            (front, back)
        }
        None => (text, ""),
    }
}

/// The authority, where there is one, and the path after it.
fn split_authority(text: &str) -> (Option<&str>, &str)
    ensures front { option_copied result.0 ≡ authority_of text.now }
    ensures back { result.1.now ≡ path_after_authority text.now }
{
    match after_slashes(text) {
        Some(rest) => {
            let (authority, path) = cut_before_slash(rest);
            (Some(authority), path)
        }
        None => (None, text),
    }
}

/// The components of `text`.
#[tactic(auto, unfolding(crate::specs::Components::components))]
pub(crate) fn pieces_of(text: &str) -> Pieces<'_>
    ensures { texts result ≡ components text.now }
{
    let (scheme, rest) = split_scheme(text);
    let (rest, fragment) = cut(rest, '#');
    let (rest, query) = cut(rest, '?');
    let (authority, path) = split_authority(rest);
    Pieces {
        scheme,
        authority,
        path,
        query,
        fragment,
    }
}

/// The place of the first colon.
fn colon_in(bytes: &[u8]) -> Option<usize>
    ensures place { result ≡ position (λ c. c == 58) bytes.now }
    ensures inside { IfSome result (λ at. at < length bytes.now) }
{
    bytes.iter().position(|byte| *byte == b':')
}

/// The byte of the first colon that is not the first character.
fn colon_at(text: &str) -> Option<usize>
    ensures { result ≡ colon_place text.now }
{
    match text.as_bytes() {
        [] => None,
        [_, rest @ ..] => match colon_in(rest) {
            Some(at) => Some(at + 1),
            None => None,
        },
    }
}

/// The texts before and after the first colon of `text` that is not its first character, where there
/// is one: the prefix and the suffix of a compact IRI. It takes no memory. JSON-LD 1.1 API, 5.2.2.
pub fn split_at_colon(text: &str) -> Option<(&str, &str)>
    ensures { option_map (λ parts. (parts.0.now, parts.1.now)) result ≡ around_colon text.now }
{
    match colon_at(text) {
        Some(at) => {
            let (prefix, rest) = text.split_at(at);
            let (_, suffix) = rest.split_at(1);
            Some((prefix, suffix))
        }
        None => None,
    }
}
