//! Marks of statements: which are mandatory, and which are chosen to be shown.

ghost use Rattle.std.specs.Prelude.{◌≡◌, ◌↔◌, All, Contains, IfOk, IsTrue};
ghost use Rattle.base_types.specs.Sets.{AllDiffer};
ghost use Rattle.nquads.specs.Stored.{IsKnown};
ghost use Rattle.nquads.specs.Terms.{Statement};
ghost use Rattle.stmt_groups.specs.Parts.{
  MarksParts,
  Parts,
  StandForParts,
  marked_quads,
  parts_of,
};
ghost use Rattle.stmt_groups.specs.Internal.Marking.{IsMarkIn, MarksNumbers};

use crate::fault::PartFault;
use crate::quad_sets::QuadSet;
use crate::strays::{all_strays, least_text};
use base_types::Memory;
use std::alloc::Global;
use std::marker::Model;
use term_store::{Quad, Quads, Terms};

/// A statement, whether it is mandatory, and whether it is chosen.
#[derive(Clone, Copy, Debug, PartialEq, Eq)]
pub struct Mark {
    pub quad: Quad,
    pub mandatory: bool,
    pub chosen: bool,
}

/// Marks of statements, which contracts see as a list. No statement has two.
#[derive(Debug, Drop)]
pub struct Marks {
    marks: Vec<Mark>,
}

impl Model for Marks {
    ghost use Rattle.std.specs.Prelude.{List};
    ghost use Rattle.base_types.specs.Sets.{AllDiffer};
    ghost use Rattle.stmt_groups.specs.declared.marking.Mark.{Mark};
    ghost use Rattle.stmt_groups.specs.Parts.{marked_quads};

    ghost Value = { List Mark };

    ghost view = { λ m. m.marks.items };

    ghost invariant = { λ m. AllDiffer (marked_quads m.marks.items) };
}

impl Marks {
    pub fn as_slice(&self) -> &[Mark]
        ensures same { result.now ≡ self.now }
        ensures differ { AllDiffer (marked_quads self.now) }
    {
        self.marks.as_slice()
    }
}

/// Marks each statement of a dataset: whether it is mandatory, and whether it is chosen. The marks
/// are in the order of the statements. Data Integrity ECDSA Cryptosuites 1.0,
/// canonicalizeAndGroup.
///
/// # Errors
///
/// - `NotPart`: a statement is out of place. A part has it and the whole does not, or it is
///   mandatory and not chosen.
/// - `Memory`: there is no memory for the marks or a text.
pub fn parts(
    alloc: Global,
    terms: &Terms<'_>,
    whole: &Quads,
    mandatory: &Quads,
    chosen: &Quads,
) -> Result<Marks, PartFault>
    requires whole { All (IsKnown terms.now) whole.now }
    requires mandatory { All (IsKnown terms.now) mandatory.now }
    requires chosen { All (IsKnown terms.now) chosen.now }
    ensures each { IfOk result (λ marks. marked_quads marks ≡ whole.now) }
    ensures exact { (p : Parts Statement)
        → StandForParts terms.now (parts_of whole.now mandatory.now chosen.now) p
        → MarksParts terms.now p result }
{
    tell_apart(terms);
    mark_numbers(alloc, terms, whole, mandatory, chosen)
}

/// No two numbers have one text, so a statement has one number.
pub fn tell_apart(terms: &Terms<'_>)
    ensures { AllDiffer terms.now }
{
    let _count = terms.len();
}

/// What `parts` does, in the numbers of the store.
fn mark_numbers(
    alloc: Global,
    terms: &Terms<'_>,
    whole: &Quads,
    mandatory: &Quads,
    chosen: &Quads,
) -> Result<Marks, PartFault>
    requires mandatory { All (IsKnown terms.now) mandatory.now }
    requires chosen { All (IsKnown terms.now) chosen.now }
    ensures { MarksNumbers terms.now (parts_of whole.now mandatory.now chosen.now) result }
{
    let all = whole.as_slice();
    let must = mandatory.as_slice();
    let may = chosen.as_slice();
    let in_whole = QuadSet::of(alloc, all)?;
    let in_mandatory = QuadSet::of(alloc, must)?;
    let in_chosen = QuadSet::of(alloc, may)?;
    let strays = all_strays(alloc, must, may, &in_whole, &in_chosen)?;
    let least = least_text(alloc, terms, strays.as_slice())?;
    match least {
        Some(text) => Err(PartFault::NotPart(text)),
        None => {
            let marks = marks_of(alloc, all, &in_mandatory, &in_chosen)?;
            Ok(Marks { marks })
        }
    }
}

/// The mark of each statement, in their order.
fn marks_of(
    alloc: Global,
    quads: &[Quad],
    mandatory: &QuadSet,
    chosen: &QuadSet,
) -> Result<Vec<Mark>, Memory>
    ensures quads { IfOk result (λ marks. marked_quads marks.items ≡ quads.now) }
    ensures says { IfOk result (λ marks.
        All (IsMarkIn (parts_of quads.now mandatory.now chosen.now)) marks.items) }
{
    let mut marks = Vec::with_capacity(alloc, quads.len())?;
    for quad in quads {
        marks.push(mark_of(quad, mandatory, chosen))?;
    }
    Ok(marks)
}

/// The mark of a statement.
fn mark_of(quad: &Quad, mandatory: &QuadSet, chosen: &QuadSet) -> Mark
    ensures quad { result.quad ≡ quad.now }
    ensures mandatory { IsTrue result.mandatory ↔ Contains mandatory.now quad.now }
    ensures chosen { IsTrue result.chosen ↔ Contains chosen.now quad.now }
{
    Mark {
        quad: *quad,
        mandatory: mandatory.has(quad),
        chosen: chosen.has(quad),
    }
}
