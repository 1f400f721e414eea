//! The deterministic subset of CBOR (RFC 8949, 4.2.1) in which proof values are written, both ways:
//! whole numbers, byte strings, texts, lists, and maps from whole numbers, of definite length and
//! with the shortest arguments.
//!
//! `specs/Grammar` says which bytes spell an item, and `specs/Refusals` with which fault an input is
//! refused, the first from left to right.
#![tactic(auto)]

mod decoding;
mod encoding;
mod equality;
mod fault;
mod heads;
mod item;
mod laws;
mod reading;

pub use base_types::{Items, Memory, Sequence, Text};
pub use decoding::decode;
pub use encoding::encode;
pub use fault::CborFault;
pub use heads::{HeadBytes, head};
pub use item::{Bytes, Item, Pair};
pub use laws::{
    a_final_fault_stays, a_front_is_truncated, an_input_has_one_outcome, equal_items_are_the_same,
    no_item_begins_another,
};
