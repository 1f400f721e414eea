//! Parts of a JSON-LD document that JSON Pointers select (RFC 6901; Data Integrity ECDSA Cryptosuites
//! 1.0, 3.4, selectJsonLd).
//!
//! `Pointer::read` reads a pointer's tokens, and `select` gives the part of a tree that pointers name:
//! each value that is named, whole, and of the objects on the way to it the members that say what they
//! are (`id`, `type`, `@id`, `@type`) and how they are read (`@context`). Elements keep the index that
//! they had when the document was read, so a place in the part is a place in the document.
#![tactic(auto)]

mod fault;
pub mod laws;
mod naming;
mod parting;
mod pointer;
mod reading;
mod selecting;

pub use base_types::{Memory, Sequence, Text};
pub use fault::{PointerFault, SelectFault};
pub use pointer::Pointer;
pub use selecting::select;
