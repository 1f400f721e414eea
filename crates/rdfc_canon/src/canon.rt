//! The canonicalization of a dataset (RDF Dataset Canonicalization, 4.4).
ghost use Rattle.std.specs.Prelude.{◌≡◌, ◌↔◌, ℕ, List, map, true, false, All, IfOk, Err};
ghost use Rattle.base_types.specs.Sets.{AllDiffer};
ghost use Rattle.nquads.specs.Terms.{Blank, Statement};
ghost use Rattle.nquads.specs.Spelling.{text_quad};
ghost use Rattle.nquads.specs.Stored.{AreLabelsKnown, IsKnown, IsLabelled, labels_by_text, quad_texts};
ghost use Rattle.rdfc_ndegree.specs.declared.limits.CanonFault.TheVariants as fault;
ghost use Rattle.rdfc_canon.specs.Canon.{nodes, canonical_labels, NameAll, AnswersRun, RunOutcome, IsRun, MeetsTie, WorkOver, IsWithinWork};
ghost use Rattle.rdfc_canon.specs.Internal.Form.{Canonicalised};

use crate::numbering::run;
use crate::relabel::canonical_labels;
use base_types::{Sequence, Text};
use digest_mac::Hash;
use nquads::{Labels, write_lines};
use rdfc_first::first_hashes;
use rdfc_ndegree::{CanonFault, Limits, node_table};
use std::alloc::Global;
use term_store::{Quads, Terms};

/// A dataset's canonical labels and lines (RDF Dataset Canonicalization, 4.4).
#[derive(Debug, Drop)]
pub struct Canon {
    /// The label of each blank node, by its number in the store: c14n0, c14n1 and so on, in this
    /// order.
    pub labels: Labels,
    /// The canonical lines under these labels, in code-point order.
    pub lines: Sequence<Text>,
    /// Whether the labels depend on the order of equals.
    pub tie: bool,
    /// How many arrangements were evaluated.
    pub work: u64,
}

/// Labels the blank nodes of a dataset (RDF Dataset Canonicalization, 4.4, with this hash).
///
/// # Errors
///
/// - `TooMuchWork`: a run evaluates more arrangements than the limit, which it carries.
/// - `Memory`: there is no memory for it.
pub fn canonicalise(
    alloc: Global,
    terms: &Terms<'_>,
    quads: &Quads,
    hash: Hash,
    limits: &Limits,
) -> Result<Canon, CanonFault>
    requires known { All (IsKnown terms.now) quads.now }
    // The answer is that of one run, within the limit.
    ensures ok { (q : List Statement) → map (quad_texts terms.now) quads.now ≡ map text_quad q
        → IfOk result (λ c. AnswersRun hash terms.now q limits.now c) }
    // Each blank node has one label, and no two have the same.
    ensures labels { (q : List Statement) → map (quad_texts terms.now) quads.now ≡ map text_quad q
        → IfOk result (λ c. NameAll q (labels_by_text terms.now c.labels)) }
    // Each label is that of a number of the store.
    ensures known { IfOk result (λ c. AreLabelsKnown terms.now c.labels) }
    // Each blank node of each statement has one, so that its line can be written.
    ensures labelled { IfOk result (λ c. All (IsLabelled terms.now c.labels) quads.now) }
    // A tie is reported exactly where a run meets one, and without one every run gives these
    // labels.
    ensures tie { (q : List Statement) → map (quad_texts terms.now) quads.now ≡ map text_quad q
        → IfOk result (λ c. (c.tie ≡ true) ↔ MeetsTie (nodes hash q)) }
    ensures every_run { (q : List Statement)
        → map (quad_texts terms.now) quads.now ≡ map text_quad q
        → IfOk result (λ c. c.tie ≡ false → (r : RunOutcome Blank) → IsRun (nodes hash q) r
        → labels_by_text terms.now c.labels ≡ canonical_labels hash q r.issuer) }
    // The limit is answered only where some run is over it, and so not where every run keeps it.
    ensures work { (q : List Statement) (limit : ℕ)
        → map (quad_texts terms.now) quads.now ≡ map text_quad q
        → result ≡ Err (fault.TooMuchWork limit)
        → (limit ≡ limits.now.work) × WorkOver (nodes hash q) limit }
    ensures within { (q : List Statement) → map (quad_texts terms.now) quads.now ≡ map text_quad q
        → IsWithinWork (nodes hash q) limits.now.work
        → (error : _) → result ≡ Err error → error ≡ fault.Memory }
{
    canonical_form(alloc, terms, quads, hash, limits)
}

/// First-degree hashes, the table of the blank nodes, their canonical numbers, and then labels and
/// lines.
fn canonical_form(
    alloc: Global,
    terms: &Terms<'_>,
    quads: &Quads,
    hash: Hash,
    limits: &Limits,
) -> Result<Canon, CanonFault>
    requires { All (IsKnown terms.now) quads.now }
    ensures is { (q : List Statement) → map (quad_texts terms.now) quads.now ≡ map text_quad q
        → Canonicalised hash terms.now q limits.now result }
    ensures known { IfOk result (λ c. AreLabelsKnown terms.now c.labels) }
    ensures labelled { IfOk result (λ c. All (IsLabelled terms.now c.labels) quads.now) }
{
    tell_apart(terms);
    let firsts = first_hashes(alloc, terms, quads, hash)?;
    let table = node_table(alloc, terms, quads, firsts.as_slice(), &[], hash)?;
    let numbered = run(alloc, &table, hash, limits)?;
    let labels = canonical_labels(alloc, firsts.as_slice(), numbered.canonical.as_slice())?;
    let lines = write_lines(alloc, terms, quads, &labels)?;
    Ok(Canon {
        labels,
        lines,
        tie: numbered.tie,
        work: numbered.work,
    })
}

/// No two numbers have one text, so a label that is found by number is that of the text.
fn tell_apart(terms: &Terms<'_>)
    ensures { AllDiffer terms.now }
{
    let _count = terms.len();
}
