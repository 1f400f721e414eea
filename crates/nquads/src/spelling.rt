//! How IRIs and literals are written (RDF Dataset Canonicalization, the canonical form of N-Quads).

ghost use Rattle.std.specs.Prelude.{◌≡◌, ◌<◌, ◌/◌, ◌%◌, [], ◌∷◌, ◌++◌, IfOk, OnOk, codes, encode_utf8};
ghost use Rattle.std.specs.List.{flat_map};
ghost use Rattle.std.specs.Option.{option_copied};
ghost use Rattle.nquads.specs.Spelling.{escape, hex_digit, hex_escape, iri_text, literal_end, literal_text};

use base_types::{Memory, Text};
use std::alloc::Global;

/// The datatype of a literal that is written without one.
pub(crate) const XSD_STRING: &str = "http://www.w3.org/2001/XMLSchema#string";

/// The empty text, with room for so many bytes.
pub(crate) fn text_with_room(alloc: Global, bytes: usize) -> Result<Text, Memory>
    ensures { IfOk result (λ t. t ≡ []) }
{
    Ok(Text::from_string(String::with_capacity(alloc, bytes)?))
}

/// An IRI as it stands in a line: in angle brackets. RDF 1.1 N-Quads, 4, IRIREF.
///
/// # Errors
///
/// `Memory`: there is no memory for the copy.
pub fn iri(alloc: Global, text: &str) -> Result<Text, Memory>
    ensures { IfOk result (λ t. t ≡ iri_text text.now) }
{
    let mut out = text_with_room(alloc, text.len().saturating_add(2))?;
    out.push_str("<")?;
    out.push_str(text)?;
    out.push_str(">")?;
    Ok(out)
}

/// The canonical literal: the text in quotes with its escapes, then `@` and the language, or `^^` and
/// the datatype, which is left out where it is xsd:string. RDF Dataset Canonicalization, the canonical
/// form of N-Quads.
///
/// # Errors
///
/// `Memory`: there is no memory for the literal.
pub fn literal(
    alloc: Global,
    text: &str,
    datatype: &str,
    language: Option<&str>,
) -> Result<Text, Memory>
    ensures { IfOk result (λ t.
        t ≡ literal_text text.now datatype.now (option_copied language.entry)) }
{
    let mut out = text_with_room(alloc, text.len().saturating_add(2))?;
    out.push_str("\"")?;
    push_escaped(&mut out, text)?;
    out.push_str("\"")?;
    push_end(&mut out, datatype, language)?;
    Ok(out)
}

/// What follows the closing quote.
fn push_end(out: &mut Text, datatype: &str, language: Option<&str>) -> Result<(), Memory>
    ensures { OnOk result
        (out.new ≡ out.old ++ literal_end datatype.now (option_copied language.entry)) }
{
    if let Some(tag) = language {
        out.push_str("@")?;
        return out.push_str(tag);
    }
    if datatype == XSD_STRING {
        return Ok(());
    }
    push_datatype(out, datatype)
}

fn push_datatype(out: &mut Text, datatype: &str) -> Result<(), Memory>
    ensures { OnOk result (out.new ≡ out.old ++ (codes "^^" ++ iri_text datatype.now)) }
{
    out.push_str("^^<")?;
    out.push_str(datatype)?;
    out.push_str(">")
}

fn push_escaped(out: &mut Text, text: &str) -> Result<(), Memory>
    ensures { OnOk result (out.new ≡ out.old ++ flat_map escape text.now) }
{
    for character in text.chars() {
        push_character(out, character)?;
    }
    Ok(())
}

fn push_character(out: &mut Text, character: char) -> Result<(), Memory>
    ensures { OnOk result (out.new ≡ out.old ++ flat_map escape (encode_utf8 character)) }
{
    match character {
        '\u{8}' => out.push_str("\\b"),
        '\t' => out.push_str("\\t"),
        '\n' => out.push_str("\\n"),
        '\u{c}' => out.push_str("\\f"),
        '\r' => out.push_str("\\r"),
        '"' => out.push_str("\\\""),
        '\\' => out.push_str("\\\\"),
        '\u{7f}' => out.push_str("\\u007F"),
        '\u{0}'..='\u{1f}' => push_code(out, character as u32 as u8),
        _ => out.push(character),
    }
}

/// `\u00` and the two hexadecimal digits of a control character.
fn push_code(out: &mut Text, code: u8) -> Result<(), Memory>
    requires { code < 128 }
    ensures { OnOk result (out.new ≡ out.old ++ hex_escape code) }
{
    out.push_str("\\u00")?;
    out.push(digit(code / 16))?;
    out.push(digit(code % 16))
}

/// A hexadecimal digit, in upper case.
fn digit(value: u8) -> char
    requires { value < 16 }
    ensures { result ≡ hex_digit value }
{
    let code = if value < 10 {
        b'0' + value
    } else {
        b'A' + (value - 10)
    };
    code as char
}
