//! Terms kept once in an arena and lent out, and statements of their numbers.
//!
//! A store (`Terms`) keeps each text once, in an arena that outlives it, and gives it a number
//! (`TermId`). What it lends is borrowed from the arena and not from the store, so a text may be
//! held while more are kept; an arena that is dropped or reset while a store or a text of it lives
//! is refused as the program is compiled. A statement (`Quad`) is four numbers, and a dataset
//! (`Quads`) a list of statements without repeats (RDF 1.1 Concepts, 3.1 and 4).
//!
//! `specs/` says what a store is: the list of its texts, where the place of a text is its number.
//! `laws` has what follows: a number keeps its text, and no two numbers have one.
#![tactic(auto)]

pub mod laws;
mod statements;
mod store;

pub use base_types::Memory;
pub use statements::{Quad, Quads};
pub use store::{TermId, Terms};
