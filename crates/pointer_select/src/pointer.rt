//! JSON Pointers. RFC 6901, section 3.
ghost use Rattle.std.specs.Prelude.{◌≡◌};
ghost use Rattle.pointer_select.specs.Pointers.{ReadsPointer};

use crate::fault::PointerFault;
use crate::reading::{first_fault, tokens_of};
use base_types::{Sequence, Text};
use std::alloc::Global;
use std::marker::Model;

/// A JSON Pointer, which contracts see as its tokens, each with its escapes read.
#[derive(Debug, Drop)]
pub struct Pointer {
    tokens: Sequence<Text>,
}

impl Model for Pointer {
    ghost use Rattle.std.specs.Prelude.{List, ℕ};

    ghost Value = { List (List ℕ) };

    ghost view = { λ p. p.tokens };
}

impl Pointer {
    /// The pointer that the text spells: the empty text, or tokens that each stand after a `/`, in which
    /// `~0` is `~` and `~1` is `/`. RFC 6901, sections 3 and 4.
    ///
    /// # Errors
    ///
    /// `BadPointer`: the text is neither empty nor begins with `/` (byte 0), or neither `0` nor `1`
    /// follows a `~` (its byte); the first of these. `Memory`: there is no memory for the tokens.
    pub fn read(alloc: Global, text: &str) -> Result<Pointer, PointerFault>
        ensures { ReadsPointer text.now result }
    {
        if let Some(at) = first_fault(text) {
            return Err(PointerFault::BadPointer(at));
        }
        match text.strip_prefix('/') {
            Some(rest) => {
                let tokens = tokens_of(alloc, rest)?;
                Ok(Pointer { tokens })
            }
            None => Ok(Pointer {
                tokens: Sequence::new(alloc),
            }),
        }
    }

    /// The tokens from the root down. It takes no memory.
    pub fn steps(&self) -> &[Text]
        ensures { result.now ≡ self.now }
    {
        self.tokens.as_slice()
    }
}
