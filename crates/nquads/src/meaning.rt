//! What is meant by characters that are written with escapes, and which texts may be read (RDF 1.1
//! N-Quads, 4).

ghost use Rattle.std.specs.Prelude.{◌≡◌, ◌<◌, ◌≤◌, length, slice_index, IfOk, IfSome, option_map};
ghost use Rattle.nquads.specs.Escapes.{hex_value, hex_number, named_escape};
ghost use Rattle.nquads.specs.Internal.Meaning.{
  MeansFirst,
  behind,
  behind_escape,
  escape_in,
  meant,
  numbered,
  seen_character,
};

use crate::parts::past;
use crate::spelling::text_with_room;
use base_types::{Memory, Text};
use std::alloc::Global;

/// The value of a hexadecimal digit, of either case.
fn hex_value(byte: u8) -> Option<u32>
    ensures value { result ≡ hex_value byte }
    ensures small { IfSome result (λ v. v < 16) }
{
    match byte {
        b'0'..=b'9' => Some((byte - 48) as u32),
        b'A'..=b'F' => Some((byte - 55) as u32),
        b'a'..=b'f' => Some((byte - 87) as u32),
        _ => None,
    }
}

/// The number that hexadecimal digits make.
fn number_of(digits: &[u8]) -> Option<u32>
    requires { length digits.now ≤ 8 }
    ensures { result ≡ hex_number 0 digits.now }
{
    let mut number = 0;
    for digit in digits {
        let value = hex_value(*digit)?;
        number = 16 * number + value;
    }
    Some(number)
}

/// The character that so many hexadecimal digits number, with which the text begins, and what
/// follows.
fn numbered(text: &str, size: usize) -> Option<(char, &str)>
    requires { size ≤ 8 }
    ensures { option_map seen_character result
        ≡ option_map (behind size text.now) (numbered size text.now) }
{
    if text.len() < size {
        return None;
    }
    let (digits, _) = text.as_bytes().split_at(size);
    let number = number_of(digits)?;
    let character = char::from_u32(number)?;
    let (_, rest) = text.split_at(size);
    Some((character, rest))
}

/// The character that a backslash and this letter stand for.
fn named(letter: u8) -> Option<char>
    ensures value { result ≡ named_escape letter }
    ensures ascii { IfSome result (λ _. letter < 128) }
{
    match letter {
        b't' => Some('\t'),
        b'b' => Some('\u{8}'),
        b'n' => Some('\n'),
        b'r' => Some('\r'),
        b'f' => Some('\u{c}'),
        b'"' | b'\'' | b'\\' => Some(letter as char),
        _ => None,
    }
}

/// The same of the first byte, and what follows it.
fn letter_in(text: &str) -> Option<(char, &str)>
    ensures { option_map seen_character result
        ≡ option_map (behind 1 text.now) (named_escape (slice_index text.now 0)) }
{
    let letter = *text.as_bytes().first()?;
    let character = named(letter)?;
    let (_, rest) = text.split_at(1);
    Some((character, rest))
}

/// The character of the escape that begins behind a backslash, and what follows.
fn escape_in(text: &str, quoted: bool) -> Option<(char, &str)>
    ensures { option_map seen_character result
        ≡ option_map (behind_escape text.now) (escape_in quoted text.now) }
{
    if let Some(digits) = past(text, 'u') {
        return numbered(digits, 4);
    }
    if let Some(digits) = past(text, 'U') {
        return numbered(digits, 8);
    }
    if !quoted {
        return None;
    }
    letter_in(text)
}

/// The first character that the text means, and what follows it.
fn character_in(text: &str, quoted: bool) -> Option<(char, &str)>
    requires { 0 < length text.now }
    ensures means { MeansFirst quoted text.now result }
    ensures shorter { IfSome result (λ p. length p.1.now < length text.now) }
{
    let mut chars = text.chars();
    let character = chars.next()?;
    let rest = chars.as_str();
    if character == '\\' {
        return escape_in(rest, quoted);
    }
    if character == '"' {
        return None;
    }
    Some((character, rest))
}

/// The text that is meant by what stands between quotes, or between angle brackets, if it is written
/// well.
pub(crate) fn meant(alloc: Global, written: &str, quoted: bool) -> Result<Option<Text>, Memory>
    ensures { IfOk result (λ text. text ≡ meant quoted written.now) }
{
    let mut out = text_with_room(alloc, written.len())?;
    let mut rest = written;
    while !rest.is_empty() {
        let Some((character, after)) = character_in(rest, quoted) else {
            return Ok(None);
        };
        out.push(character)?;
        rest = after;
    }
    Ok(Some(out))
}
