//! Labels from canonical numbers (RDF Dataset Canonicalization, 4.4.3, step 6).
ghost use Rattle.std.specs.Prelude.{◌≡◌, [], ◌++◌, slice_get, codes, decimal, IfOk, OnOk};
ghost use Rattle.rdfc_canon.specs.Internal.Labelling.{all_labels, with_label};

use base_types::{Memory, Text};
use nquads::{BlankHash, Labels};
use std::alloc::Global;

/// The labels of the nodes, c14n0, c14n1 and so on in this order. A node is a number, under which
/// `firsts` names it.
pub fn canonical_labels(
    alloc: Global,
    firsts: &[BlankHash],
    order: &[usize],
) -> Result<Labels, Memory>
    ensures { IfOk result (λ labels. labels ≡ all_labels firsts.now [] order.now) }
{
    let mut labels = Labels::new(alloc);
    for node in order {
        push_label(alloc, &mut labels, firsts, *node)?;
    }
    Ok(labels)
}

/// Gives a node the next label, if it has none.
fn push_label(
    alloc: Global,
    labels: &mut Labels,
    firsts: &[BlankHash],
    node: usize,
) -> Result<(), Memory>
    ensures { OnOk result (labels.new ≡ with_label labels.old (slice_get firsts.now node)) }
{
    let Some(first) = firsts.get(node) else {
        return Ok(());
    };
    if labels.get(first.blank).is_some() {
        return Ok(());
    }
    let text = canonical_id(alloc, labels.len())?;
    labels.push(first.blank, text)
}

/// `c14n` and a number (RDF Dataset Canonicalization, 4.5).
fn canonical_id(alloc: Global, number: usize) -> Result<Text, Memory>
    ensures { IfOk result (λ text. text ≡ codes "c14n" ++ decimal number) }
{
    let text = format!(in alloc; "c14n{number}")?;
    Ok(Text::from_string(text))
}
