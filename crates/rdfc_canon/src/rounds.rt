//! One group of one first-degree hash (RDF Dataset Canonicalization, 4.4.3, step 5).
ghost use Rattle.std.specs.Prelude.{◌≡◌, ◌<◌, ◌≤◌, ◌++◌, ◌∷◌, [], All, length, map, IfOk, IfErr};
ghost use Rattle.rdfc_ndegree.specs.Internal.Evaluations.{IsFaultOf};
ghost use Rattle.rdfc_ndegree.specs.Answers.{spending};
ghost use Rattle.rdfc_ndegree.specs.Run.{lacking};
ghost use Rattle.rdfc_ndegree.specs.Table.{IsClosed, table_nodes};
ghost use Rattle.rdfc_canon.specs.Internal.Numbering.{AnswersHashes, AnswersRound, HashesOver, neighbours_tie, next_has};

use crate::naming::issue_paths;
use digest_mac::{Hash, HexDigest};
use rdfc_ndegree::{
    CanonFault, Canonical, Memory, Meter, NodePath, NodeTable, Sequence, hash_n_degree,
};
use std::alloc::Global;

/// Hashes each member that has no canonical number, and gives numbers in the order of the hashes.
/// Whether two members have one hash, or one met a tie that counts.
///
/// Errors: those of `hash_n_degree`.
pub fn round(
    alloc: Global,
    table: &NodeTable<'_, '_>,
    canonical: &mut Canonical,
    members: &[usize],
    hash: Hash,
    meter: &mut Meter,
) -> Result<bool, CanonFault>
    requires closed { IsClosed table.now }
    requires members { All (λ k. k < length table.now) members.now }
    ensures limits { meter.new.limits ≡ meter.old.limits }
    ensures kept { meter.old.spent ≤ meter.old.limits.work
        → IfOk result (λ _. meter.new.spent ≤ meter.old.limits.work) }
    ensures ok { IfOk result (λ tie.
        AnswersRound (table_nodes hash table.now) canonical.old members.now canonical.new tie
        (spending meter.old meter.new)) }
    ensures fault { IfErr result (IsFaultOf meter.old.limits
        (HashesOver (table_nodes hash table.now) canonical.old
        (lacking (table_nodes hash table.now) canonical.old members.now) meter.old.spent)) }
{
    let mut paths = hash_members(alloc, table, canonical, members, hash, meter)?;
    paths.sort_unstable_by_key(
        |path: &NodePath|
            ensures { result ≡ path.entry.now.hash }
        { path.hash },
    );
    let tie = meets_tie(paths.as_slice());
    issue_paths(canonical, paths.as_slice())?;
    Ok(tie)
}

/// The n-degree hash of each member without canonical number, each with a new issuer that has named
/// it alone.
fn hash_members(
    alloc: Global,
    table: &NodeTable<'_, '_>,
    canonical: &Canonical,
    members: &[usize],
    hash: Hash,
    meter: &mut Meter,
) -> Result<Vec<NodePath>, CanonFault>
    requires closed { IsClosed table.now }
    requires members { All (λ k. k < length table.now) members.now }
    ensures limits { meter.new.limits ≡ meter.old.limits }
    ensures kept { meter.old.spent ≤ meter.old.limits.work
        → IfOk result (λ _. meter.new.spent ≤ meter.old.limits.work) }
    ensures ok { IfOk result (λ paths.
        AnswersHashes (table_nodes hash table.now) canonical.now
        (lacking (table_nodes hash table.now) canonical.now members.now) paths.items
        (spending meter.old meter.new)) }
    ensures fault { IfErr result (IsFaultOf meter.old.limits
        (HashesOver (table_nodes hash table.now) canonical.now
        (lacking (table_nodes hash table.now) canonical.now members.now) meter.old.spent)) }
{
    let mut paths = Vec::new(alloc);
    for member in members {
        if canonical.number(*member).is_none() {
            let issuer = issuer_of(alloc, *member)?;
            let path = hash_n_degree(alloc, table, canonical, *member, issuer, hash, meter)?;
            paths.push(path)?;
        }
    }
    Ok(paths)
}

/// A new issuer that has named one node.
fn issuer_of(alloc: Global, node: usize) -> Result<Sequence<usize>, Memory>
    ensures { IfOk result (λ issuer. issuer ≡ node ∷ []) }
{
    let mut issuer = Sequence::new(alloc);
    issuer.push(node)?;
    Ok(issuer)
}

/// Whether a result met a tie that counts, or two neighbours have one hash.
fn meets_tie(paths: &[NodePath]) -> bool
    ensures { result ≡ neighbours_tie paths.now }
{
    let mut rest = paths;
    while let Some((path, later)) = rest.split_first() {
        if path.tie || next_has(later, path.hash) {
            return true;
        }
        rest = later;
    }
    false
}

/// Whether the first result has this hash.
fn next_has(paths: &[NodePath], hash: HexDigest) -> bool
    ensures { result ≡ next_has hash paths.now }
{
    match paths.first() {
        Some(path) => path.hash == hash,
        None => false,
    }
}
