//! The table of blank nodes, built of statements (RDF Dataset Canonicalization, 4.4.3, step 2).
ghost use Rattle.std.specs.Prelude.{◌≡◌, List, [], map, All, IfOk, OnOk, Contains, get_or};
ghost use Rattle.base_types.specs.Sets.{AllDiffer};
ghost use Rattle.digest_mac.specs.Digests.{digits};
ghost use Rattle.term_store.specs.Store.{text_at};
ghost use Rattle.nquads.specs.Terms.{Blank, Statement};
ghost use Rattle.nquads.specs.Spelling.{blank_text, text_quad};
ghost use Rattle.nquads.specs.Stored.{IsKnown, quad_texts};
ghost use Rattle.nquads.specs.FirstDegree.{AreFirstHashes};
ghost use Rattle.rdfc_ndegree.specs.Internal.Building.{numbers_of, parts_by_number, related_nodes_at, relate_all, relate_graph, relate_node, relate_object, relate_parts, relate_row, unused_node, with_row, with_rows};
ghost use Rattle.rdfc_ndegree.specs.Table.{names_of};
ghost use Rattle.rdfc_ndegree.specs.TableOf.{IsTableWith, first_names};

use crate::numbers::Numbers;
use crate::table::{NodeTable, Position, StoredRelated, StoredRow};
use base_types::{Memory, Sequence};
use digest_mac::{Hash, digest_hex};
use nquads::BlankHash;
use std::alloc::Global;
use term_store::{Quad, Quads, TermId, Terms};

/// The nodes of a statement by number, and the number of its predicate in the store.
#[derive(Clone, Copy, Debug)]
pub(crate) struct Parts {
    pub predicate: TermId,
    pub subject: Option<usize>,
    pub object: Option<usize>,
    pub graph: Option<usize>,
}

/// The table of the blank nodes of a dataset, which `firsts` names with their first-degree hashes,
/// and of further nodes, which issuers may hold. The rows are in the order of `firsts`, then of
/// `others`. A node that stands in no statement has no related nodes, and the digest of nothing as
/// its first-degree hash.
///
/// # Errors
///
/// `Memory`: there is no memory for the table.
pub fn node_table<'t, 'a>(
    alloc: Global,
    terms: &'t Terms<'a>,
    quads: &Quads,
    firsts: &[BlankHash],
    others: &[TermId],
    hash: Hash,
) -> Result<NodeTable<'t, 'a>, Memory>
    requires known { All (IsKnown terms.now) quads.now }
    ensures table { (q : List Statement) (cs : List Blank)
        → map (quad_texts terms.now) quads.now ≡ map text_quad q
        → AreFirstHashes (digits hash) terms.now q firsts.now
        → map (text_at terms.now) others.now ≡ map blank_text cs
        → IfOk result (IsTableWith hash q (first_names terms.now firsts.now) cs) }
    ensures others { IfOk result (λ table.
        All (Contains (names_of table)) (map (text_at terms.now) others.now)) }
    ensures firsts { AllDiffer (map (λ h. h.blank.index) firsts.now) → others.now ≡ []
        → IfOk result (λ table. names_of table ≡ first_names terms.now firsts.now) }
{
    let NumberedTable { table, numbers } = numbered_table(
        alloc, terms, quads, firsts, others, hash,
    )?;
    drop(numbers);
    Ok(table)
}

/// A table, and the numbers of its nodes in the store, in the order of the rows.
#[derive(Drop)]
pub(crate) struct NumberedTable<'t, 'a> {
    pub table: NodeTable<'t, 'a>,
    pub numbers: Numbers,
}

/// The same table, with the numbers by which its nodes are found.
pub(crate) fn numbered_table<'t, 'a>(
    alloc: Global,
    terms: &'t Terms<'a>,
    quads: &Quads,
    firsts: &[BlankHash],
    others: &[TermId],
    hash: Hash,
) -> Result<NumberedTable<'t, 'a>, Memory>
    requires known { All (IsKnown terms.now) quads.now }
    ensures table { (q : List Statement) (cs : List Blank)
        → map (quad_texts terms.now) quads.now ≡ map text_quad q
        → AreFirstHashes (digits hash) terms.now q firsts.now
        → map (text_at terms.now) others.now ≡ map blank_text cs
        → IfOk result (λ r. IsTableWith hash q (first_names terms.now firsts.now) cs r.table) }
    ensures names { IfOk result (λ r.
        names_of r.table ≡ map (λ n. get_or terms.now n []) r.numbers) }
    ensures others { IfOk result (λ r.
        All (Contains r.numbers) (map (λ id. id.index) others.now)) }
    ensures firsts { AllDiffer (map (λ h. h.blank.index) firsts.now) → others.now ≡ []
        → IfOk result (λ r. names_of r.table ≡ first_names terms.now firsts.now) }
    ensures differ { AllDiffer terms.now }
{
    tell_apart(terms);
    let mut numbers = Numbers::new(alloc);
    let mut rows = Vec::new(alloc);
    add_firsts(alloc, &mut numbers, &mut rows, firsts)?;
    add_others(alloc, &mut numbers, &mut rows, others, hash)?;
    relate_all(&mut rows, &numbers, quads.as_slice())?;
    let table = NodeTable::from_rows(terms, rows);
    Ok(NumberedTable { table, numbers })
}

/// No two numbers have one text, so nodes are told apart by number.
pub(crate) fn tell_apart(terms: &Terms<'_>)
    ensures { AllDiffer terms.now }
{
    let _count = terms.len();
}

fn add_firsts(
    alloc: Global,
    numbers: &mut Numbers,
    rows: &mut Vec<StoredRow>,
    firsts: &[BlankHash],
) -> Result<(), Memory>
    requires { numbers.old ≡ numbers_of rows.old.items }
    ensures numbers { OnOk result (numbers.new ≡ numbers_of rows.new.items) }
    ensures rows { OnOk result (rows.new.items ≡ with_rows rows.old.items firsts.now) }
{
    for first in firsts {
        add_row(alloc, numbers, rows, *first)?;
    }
    Ok(())
}

fn add_others(
    alloc: Global,
    numbers: &mut Numbers,
    rows: &mut Vec<StoredRow>,
    others: &[TermId],
    hash: Hash,
) -> Result<(), Memory>
    requires { numbers.old ≡ numbers_of rows.old.items }
    ensures numbers { OnOk result (numbers.new ≡ numbers_of rows.new.items) }
    ensures rows { OnOk result (rows.new.items
        ≡ with_rows rows.old.items (map (unused_node hash) others.now)) }
{
    let nothing = digest_hex(hash, b"");
    for other in others {
        let unused = BlankHash {
            blank: *other,
            hash: nothing,
        };
        add_row(alloc, numbers, rows, unused)?;
    }
    Ok(())
}

/// Puts a row at the end, where the blank node has none yet.
fn add_row(
    alloc: Global,
    numbers: &mut Numbers,
    rows: &mut Vec<StoredRow>,
    first: BlankHash,
) -> Result<(), Memory>
    requires { numbers.old ≡ numbers_of rows.old.items }
    ensures numbers { OnOk result (numbers.new ≡ numbers_of rows.new.items) }
    ensures rows { OnOk result (rows.new.items ≡ with_row rows.old.items first) }
{
    if numbers.place_of(first.blank).is_some() {
        return Ok(());
    }
    let row = StoredRow {
        blank: first.blank,
        first: first.hash,
        related: Sequence::new(alloc),
    };
    numbers.push(first.blank)?;
    rows.push(row)?;
    Ok(())
}

/// Gives each row its related nodes, in the order of the statements.
fn relate_all(rows: &mut Vec<StoredRow>, numbers: &Numbers, quads: &[Quad]) -> Result<(), Memory>
    ensures { OnOk result (rows.new.items
        ≡ relate_all rows.old.items (map (parts_by_number numbers.now) quads.now)) }
{
    for quad in quads {
        let parts = parts_by_number(numbers, quad);
        relate_parts(rows, &parts)?;
    }
    Ok(())
}

fn parts_by_number(numbers: &Numbers, quad: &Quad) -> Parts
    ensures { result ≡ parts_by_number numbers.now quad.now }
{
    let graph = match quad.graph {
        Some(graph) => numbers.place_of(graph),
        None => None,
    };
    Parts {
        predicate: quad.predicate,
        subject: numbers.place_of(quad.subject),
        object: numbers.place_of(quad.object),
        graph,
    }
}

/// Each node of the statement takes it once, however often it stands there.
fn relate_parts(rows: &mut Vec<StoredRow>, parts: &Parts) -> Result<(), Memory>
    ensures { OnOk result (rows.new.items ≡ relate_parts rows.old.items parts.now) }
{
    relate_node(rows, parts.subject, parts)?;
    relate_object(rows, parts)?;
    relate_graph(rows, parts)?;
    Ok(())
}

fn relate_object(rows: &mut Vec<StoredRow>, parts: &Parts) -> Result<(), Memory>
    ensures { OnOk result (rows.new.items ≡ relate_object rows.old.items parts.now) }
{
    if parts.subject == parts.object {
        return Ok(());
    }
    relate_node(rows, parts.object, parts)
}

fn relate_graph(rows: &mut Vec<StoredRow>, parts: &Parts) -> Result<(), Memory>
    ensures { OnOk result (rows.new.items ≡ relate_graph rows.old.items parts.now) }
{
    if parts.subject == parts.graph || parts.object == parts.graph {
        return Ok(());
    }
    relate_node(rows, parts.graph, parts)
}

/// The other nodes of the statement go to the row of a node of it.
fn relate_node(rows: &mut Vec<StoredRow>, node: Option<usize>, parts: &Parts) -> Result<(), Memory>
    ensures { OnOk result (rows.new.items ≡ relate_node rows.old.items node parts.now) }
{
    let Some(node) = node else {
        return Ok(());
    };
    push_related(
        rows,
        node,
        Position::Subject,
        parts.predicate,
        parts.subject,
    )?;
    push_related(rows, node, Position::Object, parts.predicate, parts.object)?;
    push_related(rows, node, Position::Graph, parts.predicate, parts.graph)?;
    Ok(())
}

/// A node at one position of the statement goes to the row of another.
fn push_related(
    rows: &mut Vec<StoredRow>,
    node: usize,
    position: Position,
    predicate: TermId,
    other: Option<usize>,
) -> Result<(), Memory>
    ensures { OnOk result (rows.new.items
        ≡ relate_row rows.old.items node (related_nodes_at node position predicate other)) }
{
    let Some(other) = other else {
        return Ok(());
    };
    if other == node {
        return Ok(());
    }
    if node >= rows.len() {
        return Ok(());
    }
    let related = StoredRelated {
        position,
        predicate,
        node: other,
    };
    rows[node].related.push(related)?;
    Ok(())
}
