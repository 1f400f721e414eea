//! Hash N-Degree Quads over a table (RDF Dataset Canonicalization, 4.8).
ghost use Rattle.std.specs.Prelude.{◌≡◌, ◌<◌, ◌≤◌, ℕ, IfOk, All, length, Err};
ghost use Rattle.rdfc_ndegree.specs.declared.limits.CanonFault.{CanonFault};
ghost use Rattle.rdfc_ndegree.specs.Table.{table_nodes};
ghost use Rattle.rdfc_ndegree.specs.Answers.{AnswersCall, CallOver, answer, spending};

use crate::canonical::Canonical;
use crate::frames::hash_on_stack;
use crate::limits::{CanonFault, Meter};
use crate::path::NodePath;
use crate::table::{NodeTable, see_closed};
use base_types::Sequence;
use digest_mac::Hash;
use std::alloc::Global;

/// The n-degree hash of a node (RDF Dataset Canonicalization, 4.8). `issuer` is the issuer with
/// which the call begins. Each arrangement that is evaluated adds one to what `meter` has spent.
///
/// Errors: `TooMuchWork` where one more arrangement would go over the limit of work, with the
/// limit; `Memory`.
pub fn hash_n_degree(
    alloc: Global,
    table: &NodeTable<'_, '_>,
    canonical: &Canonical,
    node: usize,
    issuer: Sequence<usize>,
    hash: Hash,
    meter: &mut Meter,
) -> Result<NodePath, CanonFault>
    requires node { node < length table.now }
    requires issuer { All (λ k. k < length table.now) issuer }
    ensures limits { meter.new.limits ≡ meter.old.limits }
    ensures rises { meter.old.spent ≤ meter.new.spent }
    ensures kept { meter.old.spent ≤ meter.old.limits.work
        → IfOk result (λ _. meter.new.spent ≤ meter.old.limits.work) }
    ensures inside { IfOk result (λ p. All (λ k. k < length table.now) p.issuer) }
    ensures ok { IfOk result (λ p.
        AnswersCall (table_nodes hash table.now) canonical.now node issuer
        (answer p.hash p.issuer p.tie) (spending meter.old meter.new)) }
    ensures work { (limit : ℕ) → result ≡ Err (CanonFault.TooMuchWork limit)
        → (limit ≡ meter.old.limits.work)
        × CallOver (table_nodes hash table.now) canonical.now node issuer meter.old.spent limit }
{
    see_closed(table);
    hash_on_stack(alloc, table, canonical, node, issuer, hash, meter)
}
