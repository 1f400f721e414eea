//! One line: the statement that it says, or nothing.

ghost use Rattle.std.specs.Prelude.{◌≡◌, IfOk};
ghost use Rattle.std.specs.Str.{IsUtf8};
ghost use Rattle.nquads.specs.Internal.Parsing.{line_in};
ghost use Rattle.nquads.specs.Internal.Lines.{IsSaid, SaysSo};

use crate::parts::{is_end, parts_in};
use crate::quads::TextQuad;
use crate::terms::statement_of;
use base_types::Memory;
use std::alloc::Global;

/// What a line says.
#[derive(Debug, Drop)]
pub(crate) enum Said {
    /// It is no line of N-Quads.
    Bad,
    /// Nothing: it is empty, or a comment.
    Nothing,
    /// A statement.
    Statement(TextQuad),
}

/// What a line says that is UTF-8.
#[tactic(auto, unfolding(crate::specs::Internal::Parsing::line_in))]
fn text_said(alloc: Global, line: &str) -> Result<Said, Memory>
    ensures { IfOk result (IsSaid (line_in line.now)) }
{
    if is_end(line) {
        return Ok(Said::Nothing);
    }
    let Some(parts) = parts_in(line) else {
        return Ok(Said::Bad);
    };
    let Some(quad) = statement_of(alloc, &parts)? else {
        return Ok(Said::Bad);
    };
    Ok(Said::Statement(quad))
}

/// What a line says.
pub(crate) fn line_said(alloc: Global, line: &[u8]) -> Result<Said, Memory>
    ensures { IfOk result (SaysSo line.now) }
{
    let Ok(text) = str::from_utf8(line) else {
        return Ok(Said::Bad);
    };
    text_said(alloc, text)
}
