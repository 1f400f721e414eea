//! Related hashes, and nodes grouped by them (RDF Dataset Canonicalization, 4.7).
ghost use Rattle.std.specs.Prelude.{◌≡◌, ◌<◌, ◌++◌, map, flat_map, length, replicate, slice_get, All, IsTrue, OnOk, IfOk};
ghost use Rattle.digest_mac.specs.declared.hash.Hash.{Hash};
ghost use Rattle.rdfc_ndegree.specs.Groups.{position_text, identifier_or_hash, groups_by_hash, with_related_hash, related_groups};
ghost use Rattle.rdfc_ndegree.specs.Internal.Grouping.{add_each, last_has_hash, node_hashes};
ghost use Rattle.rdfc_ndegree.specs.Table.{group_in};
ghost use Rattle.rdfc_ndegree.specs.Datasets.{occurrence};
ghost use Rattle.rdfc_ndegree.specs.Table.{related_in_row, table_nodes};

use crate::canonical::Canonical;
use crate::identifiers::{push_canonical, push_temporary};
use crate::table::{NodeTable, Position, RelatedNode, see_closed};
use crate::temporary::Temporary;
use base_types::{Memory, Sequence};
use digest_mac::{Hash, HexDigest, digest_hex};
use std::alloc::Global;

/// A node with a hash of it, and how often it has that hash.
#[derive(Debug, Drop)]
pub(crate) struct HashedNode {
    pub hash: HexDigest,
    pub node: usize,
    pub count: usize,
}

/// The nodes with one related hash, each as often as it has that hash.
#[derive(Debug, Drop)]
pub struct NodeGroup {
    pub hash: HexDigest,
    pub members: Sequence<usize>,
}

/// The related nodes of a node, once for each occurrence, grouped by the related hashes that are
/// taken with this issuer. The groups are in hash order. RDF Dataset Canonicalization, 4.8.3, steps
/// 1 to 3.
///
/// # Errors
///
/// `Memory`: there is no memory for the groups.
pub(crate) fn related_groups(
    alloc: Global,
    table: &NodeTable<'_, '_>,
    canonical: &Canonical,
    issuer: &Temporary,
    node: usize,
    hash: Hash,
) -> Result<Vec<NodeGroup>, Memory>
    ensures groups { IfOk result (λ groups. map group_in groups.items
        ≡ related_groups (table_nodes hash table.now) canonical.now issuer.now node) }
    ensures listed { IfOk result (λ groups.
        All (λ g. All (λ m. m < length table.now) g.members) groups.items) }
{
    see_closed(table);
    let hashed = related_hashes(alloc, table, canonical, issuer, node, hash)?;
    let groups = group_by_hash(alloc, hashed)?;
    Ok(groups)
}

/// The node of each occurrence with the related hash. Occurrences that are alike, one after another,
/// take one digest together.
fn related_hashes(
    alloc: Global,
    table: &NodeTable<'_, '_>,
    canonical: &Canonical,
    issuer: &Temporary,
    node: usize,
    hash: Hash,
) -> Result<Vec<HashedNode>, Memory>
    ensures { IfOk result (λ hs. flat_map node_hashes hs.items
        ≡ map (with_related_hash (table_nodes hash table.now) canonical.now issuer.now)
        (related_in_row (slice_get table.now node))) }
{
    let mut hashed = Vec::new(alloc);
    let mut place = 0;
    while let Some(related) = table.related(node, place) {
        let end = table.alike_until(node, place);
        let next = related_hash(alloc, table, canonical, issuer, &related, end - place, hash)?;
        hashed.push(next)?;
        place = end;
    }
    Ok(hashed)
}

/// The node of so many occurrences, which are alike, with the related hash. RDF Dataset
/// Canonicalization, 4.7.3.
fn related_hash(
    alloc: Global,
    table: &NodeTable<'_, '_>,
    canonical: &Canonical,
    issuer: &Temporary,
    related: &RelatedNode<'_>,
    count: usize,
    hash: Hash,
) -> Result<HashedNode, Memory>
    ensures { IfOk result (λ h. node_hashes h ≡ replicate count
        (with_related_hash (table_nodes hash table.now) canonical.now issuer.now
        (occurrence related.now.position related.now.predicate.now related.now.node))) }
{
    let mut text = Vec::new(alloc);
    push_position(&mut text, related)?;
    push_identifier_or_hash(&mut text, table, canonical, issuer, related.node)?;
    Ok(HashedNode {
        hash: digest_hex(hash, text.as_slice()),
        node: related.node,
        count,
    })
}

/// `s`, `o` or `g`, and for the first two the predicate. RDF Dataset Canonicalization, 4.7.3, steps
/// 1 and 2.
fn push_position(text: &mut Vec<u8>, related: &RelatedNode<'_>) -> Result<(), Memory>
    ensures { OnOk result (text.new.items
        ≡ text.old.items ++ position_text related.now.position related.now.predicate.now) }
{
    match related.position {
        Position::Subject => text.push(b's')?,
        Position::Object => text.push(b'o')?,
        Position::Graph => {
            text.push(b'g')?;
            return Ok(());
        }
    }
    text.extend_from_slice(related.predicate.as_bytes())?;
    Ok(())
}

/// What a related hash calls a node: its identifier if it has one, and else its first-degree hash.
/// RDF Dataset Canonicalization, 4.7.3, steps 3 and 4.
#[tactic(auto, using(crate::proofs::Walks::known))]
fn push_identifier_or_hash(
    text: &mut Vec<u8>,
    table: &NodeTable<'_, '_>,
    canonical: &Canonical,
    issuer: &Temporary,
    node: usize,
) -> Result<(), Memory>
    ensures { (algorithm : Hash) → OnOk result (text.new.items
        ≡ text.old.items
        ++ identifier_or_hash (table_nodes algorithm table.now) canonical.now issuer.now node) }
{
    if let Some(number) = canonical.number(node) {
        push_canonical(text, number)?;
        return Ok(());
    }
    if let Some(number) = issuer.number(node) {
        push_temporary(text, number)?;
        return Ok(());
    }
    if let Some(first) = table.first(node) {
        text.extend_from_slice(first.as_str().as_bytes())?;
    }
    Ok(())
}

/// The nodes grouped by hash, the groups in hash order, each in the order of the list.
pub(crate) fn group_by_hash(
    alloc: Global,
    mut hashed: Vec<HashedNode>,
) -> Result<Vec<NodeGroup>, Memory>
    ensures { IfOk result (λ groups. map group_in groups.items
        ≡ groups_by_hash (flat_map node_hashes hashed.items)) }
{
    hashed.sort_by_key(
        |node: &HashedNode|
            ensures { result ≡ node.entry.now.hash }
        { node.hash },
    )?;
    let mut groups = Vec::new(alloc);
    for next in &hashed {
        add(alloc, &mut groups, next)?;
    }
    Ok(groups)
}

/// Adds a node, as often as it has its hash, to the last group if that has the hash too, and else as
/// a group of its own.
#[tactic(auto, using(crate::proofs::Adding::adding))]
fn add(alloc: Global, groups: &mut Vec<NodeGroup>, next: &HashedNode) -> Result<(), Memory>
    ensures { OnOk result (map group_in groups.new.items
        ≡ add_each (map group_in groups.old.items) (node_hashes next.now)) }
{
    if next.count == 0 {
        return Ok(());
    }
    if last_has_hash(groups.as_slice(), next.hash) {
        let last = groups.len() - 1;
        return push_times(&mut groups[last].members, next.node, next.count);
    }
    let mut members = Sequence::new(alloc);
    push_times(&mut members, next.node, next.count)?;
    groups.push(NodeGroup {
        hash: next.hash,
        members,
    })?;
    Ok(())
}

/// Puts a node at the end so many times.
fn push_times(members: &mut Sequence<usize>, node: usize, count: usize) -> Result<(), Memory>
    ensures { OnOk result (members.new ≡ members.old ++ replicate count node) }
{
    for _time in 0..count {
        members.push(node)?;
    }
    Ok(())
}

/// Whether there is a last group and it has this hash.
#[tactic(auto, using(crate::proofs::Adding::ending))]
fn last_has_hash(groups: &[NodeGroup], hash: HexDigest) -> bool
    ensures last { result ≡ last_has_hash (map group_in groups.now) hash }
    ensures some { IsTrue result → 0 < length groups.now }
{
    match groups.last() {
        Some(group) => group.hash == hash,
        None => false,
    }
}
