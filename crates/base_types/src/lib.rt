//! What every crate of Sodvari stands on: text that contracts see as its bytes (`Text`), a `Vec`
//! that they see as its elements (`Sequence`) and an `Rc` that they see as its value (`Shared`),
//! look-up by a text key (`find_by_key`), out of memory (`Memory`), and the words on lists and on
//! the order of texts that std lacks (`specs/`).
//!
//! Each crate above gives these names by `pub use`, so that `Memory` is one type everywhere. `Items`
//! and `Boxed` are the kit's: a `Vec` and a `Box` by which a type may lead back to itself.
#![tactic(auto)]

pub mod laws;
mod memory;
mod sequence;
mod shared;
mod sorted;
mod text;

pub use memory::Memory;
pub use sequence::Sequence;
pub use shared::Shared;
pub use sorted::{Keyed, find_by_key, search_by_key};
pub use sqlite_items::{Boxed, Items};
pub use text::Text;
