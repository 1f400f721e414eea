//! JSON documents as trees.
//!
//! A document is read with `serde_json` (RFC 8259) and kept as a `Tree` that contracts compare as plain
//! data: each list knows the index that an element had when it was read, and the members of an object
//! stand in the byte order of their names. Contracts of the crates above speak of a tree by its places
//! (`specs/Places`): what stands at the end of a list of steps, as in RFC 6901.
#![tactic(auto)]

mod comparing;
mod copying;
pub mod laws;
mod looking;
mod members;
mod misplaced;
mod nesting;
mod place;
mod pointer;
mod printing;
mod reading;
mod tree;

pub use base_types::{Items, Memory, Sequence, Text};
pub use looking::{element, look, member, text_member};
pub use place::{Place, Step};
pub use pointer::pointer_text;
pub use printing::{VERSION, print};
pub use reading::read;
pub use tree::{Item, Member, Tree, TreeFault};
