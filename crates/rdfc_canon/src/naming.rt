//! Naming nodes in the canonical issuer (RDF Dataset Canonicalization, 4.5).
ghost use Rattle.std.specs.Prelude.{◌≡◌, map, OnOk};
ghost use Rattle.rdfc_ndegree.specs.Table.{group_in};
ghost use Rattle.rdfc_ndegree.specs.Run.{alone};
ghost use Rattle.rdfc_ndegree.specs.Internal.Issuing.{issue_numbers};
ghost use Rattle.rdfc_canon.specs.Internal.Numbering.{issue_paths};

use rdfc_ndegree::{Canonical, Memory, NodeGroup, NodePath};

/// Each node gets the next canonical number, if it has none.
pub fn issue_nodes(canonical: &mut Canonical, nodes: &[usize]) -> Result<(), Memory>
    ensures { OnOk result (canonical.new ≡ issue_numbers canonical.old nodes.now) }
{
    for node in nodes {
        canonical.issue(*node)?;
    }
    Ok(())
}

/// The same for the nodes of the issuer of each result (RDF Dataset Canonicalization, 4.4.3, step
/// 5.3).
pub fn issue_paths(canonical: &mut Canonical, paths: &[NodePath]) -> Result<(), Memory>
    ensures { OnOk result (canonical.new ≡ issue_paths canonical.old paths.now) }
{
    for path in paths {
        issue_nodes(canonical, path.issuer.as_slice())?;
    }
    Ok(())
}

/// The same for the member of each group of one (RDF Dataset Canonicalization, 4.4.3, step 4).
pub fn issue_alone(canonical: &mut Canonical, groups: &[NodeGroup]) -> Result<(), Memory>
    ensures { OnOk result (canonical.new
        ≡ issue_numbers canonical.old (alone (map group_in groups.now))) }
{
    for group in groups {
        if group.members.len() == 1 {
            issue_nodes(canonical, group.members.as_slice())?;
        }
    }
    Ok(())
}
