//! A table with each shape of statement.
use crate::n_degree::{First, hashes, statements};
use bumpalo::Bump;
use digest_mac::{Hash, digest_hex};
use rdfc_ndegree::{CanonFault, NodeTable, Position, node_table};
use term_store::Terms;

const P: &str = "<http://example.org/p>";

const STATEMENTS: &str =
    "_:x <http://example.org/p> _:y .\n_:x <http://example.org/p> _:x _:y .\n<http://example.org/s> <http://example.org/p> \"_:nz\" _:x .\n";

/// The nodes, and what their first-degree hashes are taken of here.
const NODES: [First; 2] = [("_:nx", "x"), ("_:ny", "y")];

fn is_row(
    table: &NodeTable<'_, '_>,
    node: usize,
    text: &str,
    related: &[(Position, usize)],
) -> bool {
    for place in 0..related.len() {
        let same = match table.related(node, place) {
            Some(got) => {
                got.position == related[place].0
                    && got.node == related[place].1
                    && got.predicate == P
            }
            None => false,
        };
        if !same {
            return false;
        }
    }
    table.first(node) == Some(digest_hex(Hash::Sha384, text.as_bytes()))
        && table.related_len(node) == related.len()
}

// The statements are sorted by the numbers of their terms when the dataset is made. Here `_:nx`,
// `_:ny` and the predicate are kept in this order, so that `_:nx _:nx _:ny` comes before `_:nx _:ny`.
#[test]
fn rows_have_their_related_nodes(rt: HostRuntime) -> Result<(), CanonFault> {
    let alloc = rt.alloc();
    let arena = Bump::new(alloc);
    let mut terms = Terms::new(alloc, &arena)?;
    let firsts = hashes(alloc, &mut terms, &NODES, Hash::Sha384)?;
    let others = [
        terms.intern("_:ny")?,
        terms.intern("_:nq")?,
        terms.intern("_:nq")?,
    ];
    let quads = statements(alloc, &mut terms, STATEMENTS)?;
    let table = node_table(
        alloc,
        &terms,
        &quads,
        firsts.as_slice(),
        &others,
        Hash::Sha384,
    )?;
    assert_eq!(rt; table.len(), 3);
    assert!(rt;
        is_row(
            &table,
            0,
            "x",
            &[(Position::Graph, 1), (Position::Object, 1)]
        )
    );
    assert!(rt;
        is_row(
            &table,
            1,
            "y",
            &[
                (Position::Subject, 0),
                (Position::Object, 0),
                (Position::Subject, 0)
            ]
        )
    );
    assert!(rt; is_row(&table, 2, "", &[]));
    assert!(rt; table.first(3).is_none());
    assert!(rt; table.related(3, 0).is_none());
    Ok(())
}
