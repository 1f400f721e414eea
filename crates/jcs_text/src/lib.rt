//! Canonical JSON text: the JSON Canonicalization Scheme (RFC 8785), over trees whose numbers are
//! whole.
//!
//! A value has one canonical text: no space, the members of each object in the order of their names'
//! UTF-16 code units, the shortest escapes, whole numbers in decimal. `specs/Canonical` says which
//! text that is. It is the lexical form of a JSON literal (JSON-LD 1.1, 10.2, the datatype
//! `rdf:JSON`).
#![tactic(auto)]

mod fault;
pub mod laws;
mod naming;
mod writing;

pub use base_types::{Memory, Text};
pub use fault::JcsFault;
pub use writing::jcs;
