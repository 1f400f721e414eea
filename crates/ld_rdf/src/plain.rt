//! The plain forms of IRIs (RFC 3986, 4.3) and terms (JSON-LD 1.1, 4.1) that a flat document uses.

ghost use Rattle.std.specs.Prelude.{◌≡◌};
ghost use Rattle.std.specs.List.{list_all};
ghost use Rattle.ld_rdf.specs.Plain.{is_iri_character, is_plain_iri, is_term_character, is_plain_term, is_noncharacter_first, has_noncharacter};

/// Whether the text is a plain IRI: `https://`, and after that only ASCII letters, digits and
/// `- . _ / # :`.
pub fn is_plain_iri(text: &str) -> bool
    ensures { result ≡ is_plain_iri text.now }
{
    let bytes = text.as_bytes();
    bytes.starts_with(b"https://") && are_iri_characters(bytes)
}

fn are_iri_characters(bytes: &[u8]) -> bool
    ensures { result ≡ list_all is_iri_character bytes.now }
{
    bytes.iter().all(|byte| is_iri_character(*byte))
}

fn is_iri_character(byte: u8) -> bool
    ensures { result ≡ is_iri_character byte }
{
    matches!(byte, b'A'..=b'Z' | b'a'..=b'z' | b'0'..=b'9' | b'-' | b'.' | b'_' | b'/' | b'#' | b':')
}

/// Whether the text is a plain term: not empty, not beginning with `@`, without `:` and `/`.
pub fn is_plain_term(text: &str) -> bool
    ensures { result ≡ is_plain_term text.now }
{
    let bytes = text.as_bytes();
    !bytes.is_empty() && bytes[0] != b'@' && are_term_characters(bytes)
}

fn are_term_characters(bytes: &[u8]) -> bool
    ensures { result ≡ list_all is_term_character bytes.now }
{
    bytes.iter().all(|byte| is_term_character(*byte))
}

fn is_term_character(byte: u8) -> bool
    ensures { result ≡ is_term_character byte }
{
    byte != b':' && byte != b'/'
}

/// Whether the text holds U+FFFE or U+FFFF.
#[tactic(auto, using(crate::proofs::PlainLemmas::noncharacter_steps))]
pub fn has_noncharacter(text: &str) -> bool
    ensures { result ≡ has_noncharacter text.now }
{
    let bytes = text.as_bytes();
    for at in 0..bytes.len() {
        if is_noncharacter_first(&bytes[at..]) {
            return true;
        }
    }
    false
}

fn is_noncharacter_first(bytes: &[u8]) -> bool
    ensures { result ≡ is_noncharacter_first bytes.now }
{
    match bytes {
        [first, second, third, ..] => {
            *first == 0xEF && *second == 0xBF && (*third == 0xBE || *third == 0xBF)
        }
        _ => false,
    }
}
