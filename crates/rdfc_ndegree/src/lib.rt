//! N-degree hashing of blank nodes (RDF Dataset Canonicalization, 4.7 and 4.8), and what runs of
//! the canonicalization algorithm are.
//!
//! `specs/` defines n-degree hashing and runs as relations over any kind of node: every arrangement
//! is evaluated, and any with the least path may be chosen. The code works over a table in which
//! blank nodes are numbers (`NodeTable`), beside the store that keeps their texts, and a law carries
//! each of its runs to the blank nodes of the dataset. The hash is chosen by the caller.
#![tactic(auto)]

mod arrangements;
mod blank_nodes;
mod building;
mod canonical;
mod choice;
mod chosen_path;
mod degree;
mod firsts;
mod frames;
mod hash_groups;
mod identifiers;
mod limits;
mod moves;
mod nested_calls;
mod numbers;
mod order;
mod path;
mod related;
mod table;
mod temporary;
mod walk;

pub use base_types::{Memory, Sequence};
pub use blank_nodes::n_degree;
pub use building::node_table;
pub use canonical::Canonical;
pub use degree::hash_n_degree;
pub use firsts::first_groups;
pub use limits::{CanonFault, Issuer, Limits, Meter, Path};
pub use path::NodePath;
pub use related::NodeGroup;
pub use table::{NodeTable, Position, RelatedNode};
