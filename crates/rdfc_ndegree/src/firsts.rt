//! Nodes grouped by first-degree hash (RDF Dataset Canonicalization, 4.4.3, step 3).
ghost use Rattle.std.specs.Prelude.{◌≡◌, ◌<◌, map, flat_map, length, All, IfOk};
ghost use Rattle.digest_mac.specs.declared.hash.Hash.{Hash};
ghost use Rattle.rdfc_ndegree.specs.Run.{first_groups};
ghost use Rattle.rdfc_ndegree.specs.Internal.Grouping.{node_hashes, row_hash};
ghost use Rattle.rdfc_ndegree.specs.Table.{group_in, numbers_below, table_nodes, IsClosed};

use crate::related::{HashedNode, NodeGroup, group_by_hash};
use crate::table::{NodeTable, see_closed};
use base_types::Memory;
use std::alloc::Global;

/// The nodes grouped by first-degree hash, the groups in hash order, each in the order of the rows.
/// RDF Dataset Canonicalization, 4.4.3, step 3.
///
/// # Errors
///
/// `Memory`: there is no memory for the groups.
pub fn first_groups(alloc: Global, table: &NodeTable<'_, '_>) -> Result<Vec<NodeGroup>, Memory>
    ensures groups { (algorithm : Hash) → IfOk result (λ groups. map group_in groups.items
        ≡ first_groups (table_nodes algorithm table.now)) }
    ensures listed { IfOk result (λ groups.
        All (λ g. All (λ m. m < length table.now) g.members) groups.items) }
    ensures closed { IsClosed table.now }
{
    see_closed(table);
    let hashed = hashed_rows(alloc, table)?;
    let groups = group_by_hash(alloc, hashed)?;
    Ok(groups)
}

/// Each node with its first-degree hash.
fn hashed_rows(alloc: Global, table: &NodeTable<'_, '_>) -> Result<Vec<HashedNode>, Memory>
    ensures { IfOk result (λ hs. flat_map node_hashes hs.items
        ≡ map (row_hash table.now) (numbers_below (length table.now))) }
{
    let mut hashed = Vec::new(alloc);
    for node in 0..table.len() {
        let Some(first) = table.first(node) else {
            return Ok(hashed);
        };
        hashed.push(HashedNode {
            hash: first,
            node,
            count: 1,
        })?;
    }
    Ok(hashed)
}
