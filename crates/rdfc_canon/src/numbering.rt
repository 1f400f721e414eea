//! The run over the numbers of a table (RDF Dataset Canonicalization, 4.4.3, steps 3 to 5).
ghost use Rattle.std.specs.Prelude.{◌≡◌, IfOk, IfErr};
ghost use Rattle.rdfc_ndegree.specs.Internal.Evaluations.{IsFaultOf};
ghost use Rattle.rdfc_ndegree.specs.Run.{WorkOver};
ghost use Rattle.rdfc_ndegree.specs.Table.{IsClosed, table_nodes};
ghost use Rattle.rdfc_canon.specs.Internal.Numbering.{AnswersNumbers};

use crate::naming::issue_alone;
use crate::rounds::round;
use digest_mac::Hash;
use rdfc_ndegree::{CanonFault, Canonical, Limits, Meter, NodeTable, first_groups};
use std::alloc::Global;

/// The canonical numbers of the nodes of a table, whether they depend on the order of equals, and
/// how many arrangements were evaluated.
#[derive(Debug, Drop)]
pub struct CanonicalNumbers {
    pub canonical: Canonical,
    pub tie: bool,
    pub work: u64,
}

/// Numbers the nodes of a table.
///
/// Errors: `TooMuchWork`, where a run is over the limit, which it carries; `Memory`.
pub fn run(
    alloc: Global,
    table: &NodeTable<'_, '_>,
    hash: Hash,
    limits: &Limits,
) -> Result<CanonicalNumbers, CanonFault>
    ensures closed { IsClosed table.now }
    ensures ok { IfOk result (λ n.
        AnswersNumbers (table_nodes hash table.now) limits.now n.canonical n.tie n.work) }
    ensures fault { IfErr result (IsFaultOf limits.now (WorkOver (table_nodes hash table.now))) }
{
    let groups = first_groups(alloc, table)?;
    let mut canonical = Canonical::new(alloc, table.len())?;
    issue_alone(&mut canonical, groups.as_slice())?;
    let mut meter = Meter {
        spent: 0,
        limits: *limits,
    };
    let mut tie = false;
    for group in &groups {
        let members = group.members.as_slice();
        let tied = round(alloc, table, &mut canonical, members, hash, &mut meter)?;
        tie |= tied;
    }
    Ok(CanonicalNumbers {
        canonical,
        tie,
        work: meter.spent,
    })
}
