//! Contexts of JSON-LD, and how texts are read as IRIs (JSON-LD 1.1 API, sections 4.1, 4.2 and 5.2).
//!
//! An active context (`ActiveContext`) says what a text means, and leads back to the contexts from
//! before: `expand_iri` reads one. Its terms are `Definitions`, which share what they have in common.
//!
//! The definitions speak of no order. `specs/Contexts` has contexts, in which the terms are a
//! function; `specs/Iris` the table by which a text is read; `specs/Rows` and `specs/Definitions`
//! what an entry of a context object defines; `specs/Equation` the result, as an equation whose IRIs
//! are read in the result itself; `specs/Needs` and `specs/DefinitionFaults` where there is none.
//! `laws` has what follows. No call makes the result yet.
#![tactic(auto)]

mod base;
mod context;
mod definition;
mod definitions;
pub mod laws;
mod reading;

pub use base::BaseIri;
pub use base_types::{Memory, Sequence, Shared, Text};
pub use context::{ActiveContext, ContextParts};
pub use definition::{Containers, Kind, Mapped, Scoped, Setting, TermDef, TermEntry};
pub use definitions::Definitions;
pub use reading::{Mode, ReadIri, expand_iri};
