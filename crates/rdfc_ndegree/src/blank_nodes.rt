//! Hash N-Degree Quads over blank nodes by their numbers in a store (RDF Dataset Canonicalization,
//! 4.8).
ghost use Rattle.std.specs.Prelude.{◌≡◌, ◌≤◌, ◌++◌, ◌∷◌, ℕ, [], List, map, get_or, slice_get, All, Contains, Err, IfOk, OnOk};
ghost use Rattle.std.specs.List.{filter_map};
ghost use Rattle.base_types.specs.Sets.{AllDiffer};
ghost use Rattle.digest_mac.specs.Digests.{digits};
ghost use Rattle.term_store.specs.Store.{text_at};
ghost use Rattle.nquads.specs.Terms.{Blank, Statement};
ghost use Rattle.nquads.specs.Spelling.{blank_text, text_quad};
ghost use Rattle.nquads.specs.Stored.{IsKnown, quad_texts};
ghost use Rattle.nquads.specs.FirstDegree.{AreFirstHashes};
ghost use Rattle.rdfc_ndegree.specs.TableOf.{IsTableWith, first_names};
ghost use Rattle.rdfc_ndegree.specs.declared.limits.CanonFault.{CanonFault};
ghost use Rattle.rdfc_ndegree.specs.Datasets.{nodes_of};
ghost use Rattle.rdfc_ndegree.specs.Answers.{AnswersCall, CallOver, answer, spending};
ghost use Rattle.rdfc_ndegree.specs.Table.{names_of};
ghost use Rattle.rdfc_ndegree.specs.Requests.{IsCallFor, call_numbers, stored_dataset};
ghost use Rattle.rdfc_ndegree.specs.Internal.Issuing.{issue_numbers};
ghost use Rattle.rdfc_ndegree.specs.Internal.Building.{place_among};

use crate::building::{NumberedTable, numbered_table, tell_apart};
use crate::canonical::Canonical;
use crate::degree::hash_n_degree;
use crate::limits::{CanonFault, Issuer, Meter, Path};
use crate::numbers::Numbers;
use crate::table::NodeTable;
use base_types::{Memory, Sequence};
use digest_mac::Hash;
use nquads::BlankHash;
use std::alloc::Global;
use term_store::{Quads, TermId, Terms};

/// The n-degree hash of a blank node (RDF Dataset Canonicalization, 4.8, Hash N-Degree Quads).
/// `firsts` names each blank node of the dataset once, with its first-degree hash; `canonical` is
/// the canonical issuer, which names no node twice, and `issuer` the one with which the call
/// begins. Each arrangement that is evaluated adds one to what `meter` has spent. The node and
/// those of the issuers may stand in no statement: then they have no related nodes.
///
/// # Errors
///
/// `TooMuchWork`: more arrangements would be evaluated than this limit of the meter allows.
/// `Memory`: there is no memory for the search.
pub fn n_degree(
    alloc: Global,
    terms: &Terms<'_>,
    quads: &Quads,
    firsts: &[BlankHash],
    canonical: &Issuer,
    node: TermId,
    issuer: Issuer,
    hash: Hash,
    meter: &mut Meter,
) -> Result<Path, CanonFault>
    requires known { All (IsKnown terms.now) quads.now }
    ensures limits { meter.new.limits ≡ meter.old.limits }
    ensures rises { meter.old.spent ≤ meter.new.spent }
    ensures kept { meter.old.spent ≤ meter.old.limits.work
        → IfOk result (λ _. meter.new.spent ≤ meter.old.limits.work) }
    ensures ok { (q : List Statement) (n : Blank) (c i : List Blank)
        → let dataset = stored_dataset hash terms.now quads.now firsts.now in
        IsCallFor q n c i (call_numbers dataset canonical.now.order node issuer.order)
        → IfOk result (λ p. (j : List Blank)
        × (map (text_at terms.now) p.issuer.order ≡ map blank_text j)
        × AnswersCall (nodes_of (digits hash) q) c n i (answer p.hash j p.tie)
        (spending meter.old meter.new)) }
    ensures work { (q : List Statement) (n : Blank) (c i : List Blank)
        → let dataset = stored_dataset hash terms.now quads.now firsts.now in
        IsCallFor q n c i (call_numbers dataset canonical.now.order node issuer.order)
        → (limit : ℕ) → result ≡ Err (CanonFault.TooMuchWork limit)
        → (limit ≡ meter.old.limits.work)
        × CallOver (nodes_of (digits hash) q) c n i meter.old.spent limit }
{
    let CallByNumber {
        table,
        numbers,
        canonical: canonical_numbers,
        issuer: issuer_numbers,
    } = number_all(
        alloc,
        terms,
        quads,
        firsts,
        canonical.order.as_slice(),
        issuer.order.as_slice(),
        node,
        hash,
    )?;
    let Some(number) = numbers.place_of(node) else {
        unreachable!()
    };
    let path = match hash_n_degree(
        alloc,
        &table,
        &canonical_numbers,
        number,
        issuer_numbers,
        hash,
        meter,
    ) {
        Ok(path) => path,
        Err(fault) => return Err(fault),
    };
    let order = ids_of(alloc, &numbers, path.issuer.as_slice())?;
    Ok(Path {
        hash: path.hash,
        issuer: Issuer { order },
        tie: path.tie,
    })
}

/// The dataset's table, in which each node of the call has a row, the numbers of these nodes in the
/// store, and the issuers over the rows.
#[derive(Drop)]
struct CallByNumber<'t, 'a> {
    table: NodeTable<'t, 'a>,
    numbers: Numbers,
    canonical: Canonical,
    issuer: Sequence<usize>,
}

fn number_all<'t, 'a>(
    alloc: Global,
    terms: &'t Terms<'a>,
    quads: &Quads,
    firsts: &[BlankHash],
    canonical: &[TermId],
    issuer: &[TermId],
    node: TermId,
    hash: Hash,
) -> Result<CallByNumber<'t, 'a>, Memory>
    requires { All (IsKnown terms.now) quads.now }
    ensures table { (q : List Statement) (cs : List Blank)
        → map (quad_texts terms.now) quads.now ≡ map text_quad q
        → AreFirstHashes (digits hash) terms.now q firsts.now
        → map (text_at terms.now) (canonical.now ++ (issuer.now ++ node ∷ [])) ≡ map blank_text cs
        → IfOk result (λ r. IsTableWith hash q (first_names terms.now firsts.now) cs r.table) }
    ensures differ { AllDiffer terms.now }
    ensures names { IfOk result (λ r.
        names_of r.table ≡ map (λ n. get_or terms.now n []) r.numbers) }
    ensures node { IfOk result (λ r. Contains r.numbers node.index) }
    ensures canonical { IfOk result (λ r. r.canonical
        ≡ issue_numbers [] (filter_map (place_among r.numbers) canonical.now)) }
    ensures issuer { IfOk result (λ r. r.issuer
        ≡ filter_map (place_among r.numbers) issuer.now) }
{
    tell_apart(terms);
    let others = all_nodes(alloc, canonical, issuer, node)?;
    let NumberedTable { table, numbers } = numbered_table(
        alloc,
        terms,
        quads,
        firsts,
        others.as_slice(),
        hash,
    )?;
    let canonical = issuer_over(alloc, &numbers, table.len(), canonical)?;
    let issuer = places_of(alloc, &numbers, issuer)?;
    Ok(CallByNumber {
        table,
        numbers,
        canonical,
        issuer,
    })
}

/// The nodes of a call: those of its issuers, and the node itself.
fn all_nodes(
    alloc: Global,
    canonical: &[TermId],
    issuer: &[TermId],
    node: TermId,
) -> Result<Vec<TermId>, Memory>
    ensures { IfOk result (λ all. all.items ≡ canonical.now ++ (issuer.now ++ node ∷ [])) }
{
    let mut all = Vec::new(alloc);
    all.extend_from_slice(canonical)?;
    all.extend_from_slice(issuer)?;
    all.push(node)?;
    Ok(all)
}

/// The rows of the nodes that have one.
fn places_of(alloc: Global, numbers: &Numbers, nodes: &[TermId]) -> Result<Sequence<usize>, Memory>
    ensures { IfOk result (λ ks. ks ≡ filter_map (place_among numbers.now) nodes.now) }
{
    let mut places = Sequence::new(alloc);
    for node in nodes {
        if let Some(place) = numbers.place_of(*node) {
            places.push(place)?;
        }
    }
    Ok(places)
}

/// The issuer that has named these nodes, in their order, over a table of so many rows.
fn issuer_over(
    alloc: Global,
    numbers: &Numbers,
    rows: usize,
    nodes: &[TermId],
) -> Result<Canonical, Memory>
    ensures { IfOk result (λ c.
        c ≡ issue_numbers [] (filter_map (place_among numbers.now) nodes.now)) }
{
    let places = places_of(alloc, numbers, nodes)?;
    let mut issuer = Canonical::new(alloc, rows)?;
    issue_all(&mut issuer, places.as_slice())?;
    Ok(issuer)
}

fn issue_all(issuer: &mut Canonical, numbers: &[usize]) -> Result<(), Memory>
    ensures { OnOk result (issuer.new ≡ issue_numbers issuer.old numbers.now) }
{
    for number in numbers {
        issuer.issue(*number)?;
    }
    Ok(())
}

/// The numbers in the store of the nodes of these rows.
fn ids_of(alloc: Global, numbers: &Numbers, rows: &[usize]) -> Result<Sequence<TermId>, Memory>
    ensures { IfOk result (λ ids.
        map (λ id. id.index) ids ≡ filter_map (slice_get numbers.now) rows.now) }
{
    let mut ids = Sequence::new(alloc);
    for row in rows {
        if let Some(id) = numbers.at(*row) {
            ids.push(id)?;
        }
    }
    Ok(ids)
}
