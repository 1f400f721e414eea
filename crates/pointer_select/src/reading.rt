//! The tokens of a pointer, read character by character. RFC 6901, sections 3 and 4.
ghost use Rattle.std.specs.Prelude.{◌≡◌, ◌++◌, [], false, List, ℕ, encode_utf8, IfOk, OnOk};
ghost use Rattle.pointer_select.specs.Pointers.{begins_otherwise, is_bad_escape};
ghost use Rattle.pointer_select.specs.Internal.Reading.{first_bad_escape, first_fault, meant, tokens_from, tokens_with};

use base_types::{Memory, Sequence, Text};
use std::alloc::Global;
use std::mem;

/// What was read of a pointer.
#[derive(Drop)]
pub(crate) struct Reading {
    /// The tokens that are done.
    pub tokens: Sequence<Text>,
    /// The token that is not.
    pub token: Text,
    /// Whether a `~` was read that says how the next character is meant.
    pub escape: bool,
}

fn is_bad_escape(bytes: &[u8]) -> bool
    ensures { result ≡ is_bad_escape bytes.now }
{
    match bytes {
        [b'~', b'0' | b'1', ..] => false,
        [b'~', ..] => true,
        _ => false,
    }
}

fn first_bad_escape(bytes: &[u8]) -> Option<u64>
    ensures { result ≡ first_bad_escape 0 bytes.now }
{
    for at in 0..bytes.len() {
        if is_bad_escape(&bytes[at..]) {
            return Some(at as u64);
        }
    }
    None
}

/// The first byte at which the text leaves the grammar of pointers.
pub(crate) fn first_fault(text: &str) -> Option<u64>
    ensures { result ≡ first_fault text.now }
{
    match text.as_bytes() {
        [] => None,
        [b'/', ..] => first_bad_escape(text.as_bytes()),
        _ => Some(0),
    }
}

/// What a character after `~` stands for.
fn after_tilde(character: char) -> char
    ensures { result ≡ meant character }
{
    match character {
        '0' => '~',
        '1' => '/',
        other => other,
    }
}

/// Reads one more character.
fn take(alloc: Global, reading: &mut Reading, character: char) -> Result<(), Memory>
    ensures { OnOk result ((rest : List ℕ) → tokens_with reading.new rest
        ≡ tokens_with reading.old (encode_utf8 character ++ rest)) }
{
    if reading.escape {
        reading.escape = false;
        reading.token.push(after_tilde(character))?;
        return Ok(());
    }
    match character {
        '~' => {
            reading.escape = true;
            Ok(())
        }
        '/' => {
            let done = mem::replace(&mut reading.token, Text::new(alloc));
            reading.tokens.push(done)?;
            Ok(())
        }
        _ => {
            reading.token.push(character)?;
            Ok(())
        }
    }
}

/// The tokens of a pointer's text after its first `/`.
pub(crate) fn tokens_of(alloc: Global, text: &str) -> Result<Sequence<Text>, Memory>
    ensures { IfOk result (λ tokens. tokens ≡ tokens_from false [] text.now) }
{
    let mut reading = Reading {
        tokens: Sequence::new(alloc),
        token: Text::new(alloc),
        escape: false,
    };
    for character in text.chars() {
        take(alloc, &mut reading, character)?;
    }
    let Reading {
        mut tokens,
        token,
        ..
    } = reading;
    tokens.push(token)?;
    Ok(tokens)
}
