//! The table of blank nodes by number (RDF Dataset Canonicalization, 4.3).
ghost use Rattle.std.specs.Prelude.{◌≡◌, ◌≤◌, ℕ, IsTrue, Some, length, map, slice_get};
ghost use Rattle.std.specs.Option.{option_map};
ghost use Rattle.rdfc_ndegree.specs.Nodes.{Occurrence};
ghost use Rattle.rdfc_ndegree.specs.Datasets.{occurrence};
ghost use Rattle.rdfc_ndegree.specs.Internal.Grouping.{IsAlikeUntil};
ghost use Rattle.rdfc_ndegree.specs.declared.table.StoredRelated.{StoredRelated};
ghost use Rattle.rdfc_ndegree.specs.Table.{AreRowsKnown, IsClosed, related_in_row, row_texts};

use base_types::Sequence;
use digest_mac::HexDigest;
use std::marker::Model;
use term_store::{TermId, Terms};

/// Where a related node stands in a statement.
#[derive(Clone, Copy, Debug, PartialEq, Eq)]
pub enum Position {
    Subject,
    Object,
    Graph,
}

/// One occurrence of a related node as a row keeps it: where it stands, the number of the statement's
/// predicate in the store, and the number of the node.
#[derive(Clone, Copy, Debug)]
pub(crate) struct StoredRelated {
    pub position: Position,
    pub predicate: TermId,
    pub node: usize,
}

/// A node: the number by which statements name it, its first-degree hash, and its related nodes,
/// once for each occurrence.
#[derive(Debug, Drop)]
pub(crate) struct StoredRow {
    pub blank: TermId,
    pub first: HexDigest,
    pub related: Sequence<StoredRelated>,
}

/// One occurrence of a related node: where it stands, the statement's predicate in angle brackets,
/// and the number of the node.
#[derive(Clone, Copy, Debug)]
pub struct RelatedNode<'a> {
    pub position: Position,
    pub predicate: &'a str,
    pub node: usize,
}

/// The blank nodes of a dataset by number, over the store that keeps its terms. A node's number is
/// its row. Contracts see rows with the texts of the store.
#[derive(Drop)]
pub struct NodeTable<'t, 'a> {
    terms: &'t Terms<'a>,
    rows: Vec<StoredRow>,
}

impl<'t, 'a> Model for NodeTable<'t, 'a> {
    ghost use Rattle.std.specs.Prelude.{List, map};
    ghost use Rattle.rdfc_ndegree.specs.Table.{AreRowsKnown, IsClosed, NodeRow, row_texts};

    ghost Value = { List NodeRow };

    ghost view = { λ t. map (row_texts t.terms.now) t.rows.items };

    ghost invariant = { λ t. IsClosed (map (row_texts t.terms.now) t.rows.items)
        × AreRowsKnown t.terms.now t.rows.items };
}

impl<'t, 'a> NodeTable<'t, 'a> {
    /// The table with these rows.
    pub(crate) fn from_rows(terms: &'t Terms<'a>, rows: Vec<StoredRow>) -> NodeTable<'t, 'a>
        requires closed { IsClosed (map (row_texts terms.now) rows.items) }
        requires known { AreRowsKnown terms.now rows.items }
        ensures { result ≡ map (row_texts terms.now) rows.items }
    {
        NodeTable { terms, rows }
    }

    /// The number of nodes. The related nodes of each are nodes of the table.
    pub fn len(&self) -> usize
        ensures count { result ≡ length self.now }
        ensures closed { IsClosed self.now }
    {
        self.rows.len()
    }

    /// The first-degree hash of a node.
    pub fn first(&self, node: usize) -> Option<HexDigest>
        ensures { result ≡ option_map (λ row. row.first) (slice_get self.now node) }
    {
        let row = self.rows.get(node)?;
        Some(row.first)
    }

    /// The number of occurrences of related nodes of a node.
    pub fn related_len(&self, node: usize) -> usize
        ensures { result ≡ length (related_in_row (slice_get self.now node)) }
    {
        match self.rows.get(node) {
            Some(row) => row.related.len(),
            None => 0,
        }
    }

    /// One occurrence of a related node of a node, counted from 0.
    pub fn related(&self, node: usize, place: usize) -> Option<RelatedNode<'a>>
        ensures { option_map (λ r. occurrence r.position r.predicate.now r.node) result
            ≡ slice_get (related_in_row (slice_get self.now node)) place }
    {
        let row = self.rows.get(node)?;
        let related = row.related.get(place)?;
        let terms = self.terms;
        Some(RelatedNode {
            position: related.position,
            predicate: terms.text(related.predicate),
            node: related.node,
        })
    }

    /// The place behind the occurrences that are alike from `place` on, one after another: in position,
    /// predicate and node.
    pub(crate) fn alike_until(&self, node: usize, place: usize) -> usize
        ensures after { place ≤ result }
        ensures alike { (o : Occurrence ℕ)
            → Some o ≡ slice_get (related_in_row (slice_get self.now node)) place
            → IsAlikeUntil (related_in_row (slice_get self.now node)) place o result }
    {
        match self.rows.get(node) {
            Some(row) => alike_until(row.related.as_slice(), place),
            None => place,
        }
    }
}

/// The place behind the occurrences that are alike from `place` on.
fn alike_until(related: &[StoredRelated], place: usize) -> usize
    ensures after { place ≤ result }
    ensures alike { (r : StoredRelated) → Some r ≡ slice_get related.now place
        → IsAlikeUntil related.now place r result }
{
    let Some(first) = related.get(place) else {
        return place;
    };
    let mut end = place + 1;
    while end < related.len() && is_alike(first, &related[end]) {
        end += 1;
    }
    end
}

/// Whether two occurrences are alike in position, predicate and node.
fn is_alike(one: &StoredRelated, other: &StoredRelated) -> bool
    ensures { IsTrue result → one.now ≡ other.now }
{
    one.position == other.position && one.predicate == other.predicate && one.node == other.node
}

/// Each related node is a row of the table.
pub(crate) fn see_closed(table: &NodeTable<'_, '_>)
    ensures { IsClosed table.now }
{
    let _nodes = table.len();
}
