//! From JSON-LD documents to RDF statements (JSON-LD 1.1 API, section 8).
//!
//! For now it knows flat requests: one supplied context of plain terms and a document of texts
//! under them. `flat` reads a whole request, `flat_document` a document without one member, and
//! `flat_options` proof options, which take a given context; `flat_lines` gives the lines of a whole
//! request at once. `specs/Flat` says which requests are flat and what they mean, and
//! `specs/Reduced` which request stands for such parts.
#![tactic(auto)]

mod fault;
mod forms;
mod parts;
mod plain;
mod reduced;
mod statements;

pub use base_types::{Memory, Sequence, Text};
pub use fault::FlatFault;
pub use reduced::{flat_document, flat_options};
pub use statements::{flat, flat_lines};
