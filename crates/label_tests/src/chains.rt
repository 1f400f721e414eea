//! Chains and cycles of blank nodes, whose n-degree calls nest hundreds and thousands deep, and nodes that
//! all point to each other.
use crate::canonical_forms::{answer, is_over};
use crate::cases::{G, P};
use bumpalo::Bump;
use digest_mac::Hash;
use nquads::Text;
use rdfc_canon::{CanonFault, Memory};
use std::alloc::Global;
use term_store::Terms;

/// Puts the line of a statement that one node points to another at the end. The graph is a name, or
/// the empty text for the default graph.
fn push_arrow(
    alloc: Global,
    text: &mut Text,
    from: usize,
    to: usize,
    graph: &str,
) -> Result<(), Memory> {
    let line = format!(in alloc; "_:n{from} {P} _:n{to} {graph} .\n")?;
    text.push_str(line.as_str())
}

/// A chain of nodes, each of which points to the next one; in a cycle the last points to the first.
fn chain(alloc: Global, nodes: usize, is_cycle: bool) -> Result<Text, Memory> {
    let mut text = Text::new(alloc);
    for node in 0..nodes {
        if node + 1 < nodes {
            push_arrow(alloc, &mut text, node, node + 1, G)?;
        } else if is_cycle {
            push_arrow(alloc, &mut text, node, 0, G)?;
        }
    }
    Ok(text)
}

// Nothing tells the nodes apart, so each is hashed, and each call evaluates an arrangement for both
// neighbours of every node: 300 times 600.
#[test]
fn cycle_of_three_hundred_nodes(rt: HostRuntime) -> Result<(), CanonFault> {
    let text = chain(rt.alloc(), 300, true)?;
    for hash in [Hash::Sha256, Hash::Sha384] {
        let arena = Bump::new(rt.alloc());
        let mut terms = Terms::new(rt.alloc(), &arena)?;
        let canon = answer(rt.alloc(), &mut terms, &text, hash, 180_000)?;
        assert!(rt; canon.tie);
        assert_eq!(rt; canon.work, 180_000);
        assert_eq!(rt; canon.labels.len(), 300);
        assert_eq!(rt; canon.lines.len(), 300);
        let over = is_over(rt.alloc(), &text, hash, 179_999)?;
        assert!(rt; over);
    }
    Ok(())
}

// All nodes but the ends have one first-degree hash. The first call is that of a neighbour of an
// end, and goes on to the other end before it comes back; it evaluates 7,996 arrangements, so the
// second one is refused.
#[test]
fn chain_of_four_thousand_nodes(rt: HostRuntime) -> Result<(), CanonFault> {
    let text = chain(rt.alloc(), 4_000, false)?;
    for hash in [Hash::Sha256, Hash::Sha384] {
        let over = is_over(rt.alloc(), &text, hash, 10_000)?;
        assert!(rt; over);
    }
    Ok(())
}

/// So many nodes, each of which points to each other one.
fn complete(alloc: Global, nodes: usize) -> Result<Text, Memory> {
    let mut text = Text::new(alloc);
    for from in 0..nodes {
        for to in 0..nodes {
            if from != to {
                push_arrow(alloc, &mut text, from, to, "")?;
            }
        }
    }
    Ok(text)
}

#[test]
fn much_work_is_refused_at_once(rt: HostRuntime) -> Result<(), CanonFault> {
    let text = complete(rt.alloc(), 8)?;
    for hash in [Hash::Sha256, Hash::Sha384] {
        let over = is_over(rt.alloc(), &text, hash, 100)?;
        assert!(rt; over);
    }
    Ok(())
}
