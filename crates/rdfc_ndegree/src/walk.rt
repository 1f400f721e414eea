//! The path of an arrangement (RDF Dataset Canonicalization, 4.8.3, steps 5.4.4 and 5.4.5).
ghost use Rattle.std.specs.Prelude.{◌≡◌, ◌++◌, ℕ, List, OnOk, IfOk};
ghost use Rattle.digest_mac.specs.declared.hash.Hash.{Hash};
ghost use Rattle.rdfc_ndegree.specs.NDegree.{first_path, issuer_copy, path_part, recursion_list};
ghost use Rattle.rdfc_ndegree.specs.NumberIssuers.{number_in};
ghost use Rattle.rdfc_ndegree.specs.Table.{NodeRow, table_nodes};

use crate::canonical::Canonical;
use crate::identifiers::{push_canonical, push_temporary};
use crate::temporary::Temporary;
use base_types::{Memory, Sequence};
use digest_mac::HexDigest;
use std::alloc::Global;

/// The first pass over an arrangement: the path that its members give, and those of them that were
/// named in this pass, in order.
#[derive(Debug, Drop)]
pub(crate) struct Walk {
    pub path: Sequence<u8>,
    pub recursion_list: Sequence<usize>,
}

/// Goes over the members of an arrangement: each one that has no identifier yet is named in the
/// issuer, and the identifier of each goes to the path. RDF Dataset Canonicalization, 4.8.3, step
/// 5.4.4.
///
/// # Errors
///
/// `Memory`: there is no memory for the path or for what is named.
pub(crate) fn walk_over(
    alloc: Global,
    canonical: &Canonical,
    issuer: &mut Temporary,
    members: &[usize],
) -> Result<Walk, Memory>
    ensures { (algorithm : Hash) (rows : List NodeRow) → IfOk result (λ w.
        (w.path ≡ first_path (table_nodes algorithm rows) canonical.now issuer.old members.now)
        × (issuer.new
        ≡ issuer_copy (table_nodes algorithm rows) canonical.now issuer.old members.now)
        × (w.recursion_list
        ≡ recursion_list (table_nodes algorithm rows) canonical.now issuer.old members.now)) }
{
    let mut path = Vec::new(alloc);
    let mut recursion_list = Vec::new(alloc);
    for member in members {
        if let Some(number) = canonical.number(*member) {
            push_canonical(&mut path, number)?;
        } else if let Some(number) = issuer.number(*member) {
            push_temporary(&mut path, number)?;
        } else {
            push_temporary(&mut path, issuer.len())?;
            issuer.append(*member)?;
            recursion_list.push(*member)?;
        }
    }
    Ok(Walk {
        path: Sequence::from_vec(path),
        recursion_list: Sequence::from_vec(recursion_list),
    })
}

/// Puts what a nested call adds at the end of the path: `_:` and the temporary identifier with the
/// member's number, and the hash in angle brackets. RDF Dataset Canonicalization, 4.8.3, steps
/// 5.4.5.2 and 5.4.5.3.
///
/// # Errors
///
/// `Memory`: there is no memory for the longer path.
pub(crate) fn push_path_part(
    path: &mut Vec<u8>,
    number: usize,
    hash: HexDigest,
) -> Result<(), Memory>
    ensures { (algorithm : Hash) (rows : List NodeRow) (i : List ℕ) (m : ℕ)
        → number ≡ number_in i m → OnOk result (path.new.items
        ≡ path.old.items ++ path_part (table_nodes algorithm rows) i m hash) }
{
    push_temporary(path, number)?;
    path.push(b'<')?;
    path.extend_from_slice(hash.as_str().as_bytes())?;
    path.push(b'>')?;
    Ok(())
}
