//! What issuing, deriving and verifying say of statements: which are mandatory and which are
//! chosen, their lines in groups, what is signed with a base proof, when a derived proof is good,
//! and what a yes says of the records made before it (Data Integrity ECDSA Cryptosuites 1.0,
//! ecdsa-sd-2023).
//!
//! `parts` marks the statements of a dataset, and `group` gives their canonical lines with these
//! marks. The rest is definitions, in `specs/`, and what holds of them, in `laws`.
#![tactic(auto)]

mod fault;
mod grouping;
pub mod laws;
mod marking;
mod quad_sets;
mod shown;
mod strays;
mod types;

pub use base_types::{Memory, Sequence, Text};
pub use fault::PartFault;
pub use grouping::{Groups, Line, group};
pub use marking::{Mark, Marks, parts};
pub use types::{BaseRecord, Cause, ListName, PointerRefusal, Which};
