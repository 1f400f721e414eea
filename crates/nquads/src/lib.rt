//! Statements as texts, and canonical N-Quads (RDF 1.1 N-Quads; RDF Dataset Canonicalization, the
//! canonical form).
//!
//! A statement is kept as the spellings of its parts (`TextQuad`), and a dataset as a list of these
//! without repeats (`TextQuads`). A blank node gets a label of its own (`TextLabels`) when lines are
//! written. The writers `write_line`, `write_lines` and `write` do the same over a store: a part is
//! a number in it (`term_store::Quad`), and labels are found by number (`Labels`). `read` reads
//! N-Quads into a store.
//!
//! `specs/` says what terms, statements and datasets are, when two datasets are the same up to the
//! names of blank nodes, what a canonical line and text are, and what a text of N-Quads says. `laws`
//! has what holds of these: spellings, lines and texts have one reading, and what is written reads
//! back.
#![tactic(auto)]

mod blanks;
mod fault;
mod grammar;
mod hashes;
mod labels;
pub mod laws;
mod line;
mod lines;
mod meaning;
mod numbers;
mod parts;
mod quads;
mod reading;
mod spelling;
mod storing;
mod terms;
mod written;

pub use base_types::{Memory, Sequence, Text};
pub use fault::NqFault;
pub use hashes::BlankHash;
pub use labels::{TextLabel, TextLabels};
pub use lines::{canonical_lines, join, line_of, text_of};
pub use numbers::{Label, Labels};
pub use quads::{TextQuad, TextQuads};
pub use reading::read;
pub use spelling::{iri, literal};
pub use written::{write, write_line, write_lines};
