//! Places as JSON Pointers. RFC 6901.

ghost use Rattle.std.specs.Prelude.{◌≡◌, ◌++◌, ◌∷◌, IfOk, OnOk, encode_utf8};
ghost use Rattle.std.specs.List.{flat_map};
ghost use Rattle.json_tree.specs.Places.{escaped, token_of, pointer_of};

use crate::place::{Place, Step};
use base_types::{Memory, Text};
use std::alloc::Global;

/// The JSON Pointer of a place: each step after a `/`, a name with `~` as `~0` and `/` as `~1`, an
/// index in decimal. RFC 6901, sections 3 and 4.
///
/// # Errors
///
/// `Memory`: there is no memory for the text.
pub fn pointer_text(alloc: Global, place: &Place) -> Result<Text, Memory>
    ensures { IfOk result (λ text. text ≡ pointer_of place.now.steps) }
{
    let mut out = Text::new(alloc);
    for step in place.steps.as_slice() {
        out.push_str("/")?;
        push_token(alloc, &mut out, step)?;
    }
    Ok(out)
}

fn push_token(alloc: Global, out: &mut Text, step: &Step) -> Result<(), Memory>
    ensures { OnOk result (out.new ≡ out.old ++ token_of step.now) }
{
    match step {
        Step::Key(key) => push_escaped(out, key.as_str()),
        Step::At(at) => {
            let digits = at.to_string(alloc)?;
            out.push_str(digits.as_str())
        }
    }
}

fn push_escaped(out: &mut Text, key: &str) -> Result<(), Memory>
    ensures { OnOk result (out.new ≡ out.old ++ flat_map escaped key.now) }
{
    for character in key.chars() {
        push_character(out, character)?;
    }
    Ok(())
}

fn push_character(out: &mut Text, character: char) -> Result<(), Memory>
    ensures { OnOk result (out.new ≡ out.old ++ flat_map escaped (encode_utf8 character)) }
{
    match character {
        '~' => out.push_str("~0"),
        '/' => out.push_str("~1"),
        _ => out.push(character),
    }
}
