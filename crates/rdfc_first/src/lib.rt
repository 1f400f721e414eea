//! First-degree hashes of the blank nodes of a dataset (RDF Dataset Canonicalization, 4.6).
//!
//! `first_hashes` writes each statement once for each blank node that it mentions, with that node as
//! `_:a` and the others as `_:z`, sorts these lines by the node's number in the store, and digests
//! each node's lines by the hash that is asked for. It takes n log n steps.
#![tactic(auto)]

mod grouping;
mod mentions;

pub use grouping::first_hashes;
pub use nquads::{BlankHash, Memory};
