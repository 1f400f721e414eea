//! Canonical labels of blank nodes (RDF Dataset Canonicalization, RDFC-1.0).
//!
//! `canonicalise` labels the blank nodes of a dataset, writes its canonical lines, and says whether
//! the labels hang on the order of equals (a tie) and how many arrangements were evaluated. `laws`
//! has what holds of the definition: runs exist and agree, and neither the names of blank nodes nor
//! the order of statements matters.
#![tactic(auto)]

mod canon;
pub mod laws;
mod naming;
mod numbering;
mod relabel;
mod rounds;

pub use canon::{Canon, canonicalise};
pub use rdfc_ndegree::{CanonFault, Limits, Memory};
