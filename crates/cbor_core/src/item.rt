//! The items of CBOR that are read and written here (RFC 8949, 3.1).

use base_types::{Items, Sequence, Text};

/// The content of a byte string. Contracts see it as the list of its bytes.
pub type Bytes = Sequence<u8>;

/// An item of CBOR (RFC 8949, 3.1): major types 0, 2, 3, 4 and 5.
#[derive(Debug, Drop)]
pub enum Item {
    Whole(u64),
    Blob(Bytes),
    Text(Text),
    List(Items<Item>),
    /// The pairs of a map, by rising key.
    Map(Items<Pair>),
}

/// One key of a map and its value.
#[derive(Debug, Drop, PartialEq, Eq)]
pub struct Pair<V = Item> {
    pub key: u64,
    pub value: V,
}
