//! The lines of a dataset with the marks of their statements.

ghost use Rattle.std.specs.Prelude.{All, IfOk};
ghost use Rattle.std.specs.List.{AllZip};
ghost use Rattle.nquads.specs.Stored.{AreLabelsKnown, IsKnown, IsLabelled, labels_by_text};
ghost use Rattle.nquads.specs.Terms.{Statement};
ghost use Rattle.nquads.specs.Texts.{label_in};
ghost use Rattle.stmt_groups.specs.Groups.{AreGroups};
ghost use Rattle.stmt_groups.specs.Internal.Grouping.{IsLineFor};
ghost use Rattle.stmt_groups.specs.Parts.{AreMarks, Parts, marked_quads};

use crate::marking::{Mark, Marks, tell_apart};
use base_types::{Memory, Sequence, Text};
use nquads::{Labels, write_line};
use std::alloc::Global;
use term_store::Terms;

/// The canonical line of a statement, LF included, whether the statement is mandatory, and whether
/// it is chosen. Lines are ordered by their texts first.
#[derive(Debug, Drop, PartialEq, Eq, PartialOrd, Ord)]
pub struct Line {
    pub text: Text,
    pub mandatory: bool,
    pub chosen: bool,
}

/// The lines of a dataset in code-point order, each once.
#[derive(Debug, Drop)]
pub struct Groups {
    pub lines: Sequence<Line>,
}

/// The canonical lines of the marked statements, each with its marks, in code-point order. Data
/// Integrity ECDSA Cryptosuites 1.0, canonicalizeAndGroup.
///
/// # Errors
///
/// `Memory`: there is no memory for the lines.
pub fn group(
    alloc: Global,
    terms: &Terms<'_>,
    marks: &Marks,
    labels: &Labels,
) -> Result<Groups, Memory>
    requires known { All (IsKnown terms.now) (marked_quads marks.now) }
    requires labels { AreLabelsKnown terms.now labels.now }
    requires labelled { All (IsLabelled terms.now labels.now) (marked_quads marks.now) }
    ensures { (p : Parts Statement) → AreMarks terms.now p marks.now
        → IfOk result (λ g.
        AreGroups (label_in (labels_by_text terms.now labels.now)) p g.lines) }
{
    tell_apart(terms);
    let mut lines = lines_of(alloc, terms, marks.as_slice(), labels)?;
    lines.sort_unstable();
    lines.dedup();
    Ok(Groups {
        lines: Sequence::from_vec(lines),
    })
}

/// The line of each mark, in their order.
fn lines_of(
    alloc: Global,
    terms: &Terms<'_>,
    marks: &[Mark],
    labels: &Labels,
) -> Result<Vec<Line>, Memory>
    requires known { All (IsKnown terms.now) (marked_quads marks.now) }
    requires labels { AreLabelsKnown terms.now labels.now }
    requires labelled { All (IsLabelled terms.now labels.now) (marked_quads marks.now) }
    ensures { IfOk result (λ lines.
        AllZip (IsLineFor terms.now labels.now) marks.now lines.items) }
{
    let mut lines = Vec::with_capacity(alloc, marks.len())?;
    for mark in marks {
        let line = line_for(alloc, terms, mark, labels)?;
        lines.push(line)?;
    }
    Ok(lines)
}

/// The line of a mark.
fn line_for(alloc: Global, terms: &Terms<'_>, mark: &Mark, labels: &Labels) -> Result<Line, Memory>
    requires known { IsKnown terms.now mark.now.quad }
    requires labels { AreLabelsKnown terms.now labels.now }
    requires labelled { IsLabelled terms.now labels.now mark.now.quad }
    ensures { IfOk result (IsLineFor terms.now labels.now mark.now) }
{
    let text = write_line(alloc, terms, &mark.quad, labels)?;
    Ok(Line {
        text,
        mandatory: mark.mandatory,
        chosen: mark.chosen,
    })
}
