//! Which texts N-Quads admits for IRIs, languages and labels (RDF 1.1 N-Quads, 4).

ghost use Rattle.std.specs.Prelude.{◌≡◌};
ghost use Rattle.std.specs.List.{list_all};
ghost use Rattle.nquads.specs.Terms.{is_letter, is_digit, is_label_character};
ghost use Rattle.nquads.specs.Internal.Meaning.{
  holds_noncharacter,
  is_iri,
  is_label,
  is_language,
  is_mark,
};
ghost use Rattle.nquads.specs.Internal.Parsing.{is_language_character};

use iri_ref::is_absolute;

fn is_letter(byte: u8) -> bool
    ensures { result ≡ is_letter byte }
{
    (byte >= b'A' && byte <= b'Z') || (byte >= b'a' && byte <= b'z')
}

fn is_digit(byte: u8) -> bool
    ensures { result ≡ is_digit byte }
{
    byte >= b'0' && byte <= b'9'
}

/// A byte of a label's character.
pub(crate) fn is_label_byte(byte: u8) -> bool
    ensures { result ≡ is_label_character byte }
{
    is_letter(byte)
        || is_digit(byte)
        || byte == b'_'
        || byte == b':'
        || byte == b'-'
        || byte == b'.'
        || byte >= 128
}

/// A letter, a digit or a hyphen.
pub(crate) fn is_language_byte(byte: u8) -> bool
    ensures { result ≡ is_language_character byte }
{
    is_letter(byte) || is_digit(byte) || byte == b'-'
}

/// Whether U+FFFE or U+FFFF stands in the text.
pub(crate) fn has_noncharacter(text: &str) -> bool
    ensures { result ≡ holds_noncharacter text.now }
{
    text.contains("\u{fffe}") || text.contains("\u{ffff}")
}

/// Whether the text is an absolute IRI that may be read.
pub(crate) fn is_iri(text: &str) -> bool
    ensures { result ≡ is_iri text.now }
{
    is_absolute(text) && !has_noncharacter(text)
}

/// Whether the text is a language: letters, then groups of a hyphen and letters or digits.
pub(crate) fn is_language(text: &str) -> bool
    ensures { result ≡ is_language text.now }
{
    let bytes = text.as_bytes();
    let mut first = true;
    let mut begun = false;
    for byte in bytes {
        if *byte == b'-' {
            if !begun {
                return false;
            }
            first = false;
            begun = false;
        } else if is_letter(*byte) || (!first && is_digit(*byte)) {
            begun = true;
        } else {
            return false;
        }
    }
    begun
}

fn is_mark(byte: u8) -> bool
    ensures { result ≡ is_mark byte }
{
    byte == b'-' || byte == b'.'
}

fn are_label_bytes(bytes: &[u8]) -> bool
    ensures { result ≡ list_all is_label_character bytes.now }
{
    bytes.iter().all(|byte| is_label_byte(*byte))
}

/// Whether the text is a label.
pub(crate) fn is_label(text: &str) -> bool
    ensures { result ≡ is_label text.now }
{
    let bytes = text.as_bytes();
    if bytes.is_empty() || is_mark(bytes[0]) || bytes[bytes.len() - 1] == b'.' {
        return false;
    }
    are_label_bytes(bytes) && !has_noncharacter(text)
}
