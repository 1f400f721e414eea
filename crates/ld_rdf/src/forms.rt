//! The forms in which the statements of a document are given: by their spellings, and as their
//! canonical lines (RDF Dataset Canonicalization, the canonical form of N-Quads).

ghost use Rattle.std.specs.Prelude.{◌≡◌, IfOk};
ghost use Rattle.nquads.specs.Terms.{Statement};
ghost use Rattle.nquads.specs.Spelling.{text_quad};

use base_types::{Memory, Text};
use nquads::{TextLabels, TextQuad, line_of};
use std::alloc::Global;

/// A form in which statements are given.
pub trait Form: Drop {
    /// The form of a statement.
    ghost form_of: { Statement → Self };

    /// The form of the statement with these spellings.
    fn from_quad(alloc: Global, quad: TextQuad) -> Result<Self, Memory>
        ensures { (s : Statement) → quad ≡ text_quad s → IfOk result (λ form. form ≡ form_of s) };
}

/// The spellings themselves.
impl Form for TextQuad {
    ghost form_of = { text_quad };

    fn from_quad(_alloc: Global, quad: TextQuad) -> Result<TextQuad, Memory> {
        Ok(quad)
    }
}

/// The canonical line, in which no blank node has a label.
impl Form for Text {
    ghost use Rattle.std.specs.Prelude.{[]};
    ghost use Rattle.nquads.specs.Lines.{line};

    ghost form_of = { line (λ b. []) };

    fn from_quad(alloc: Global, quad: TextQuad) -> Result<Text, Memory> {
        line_of(alloc, &quad, &TextLabels::new(alloc))
    }
}
