//! A blank node with a hash (RDF Dataset Canonicalization, 4.6).

use digest_mac::HexDigest;
use term_store::TermId;

/// A blank node, by its number in a store, and a hash of it.
#[derive(Clone, Copy, Debug, PartialEq, Eq)]
pub struct BlankHash {
    pub blank: TermId,
    pub hash: HexDigest,
}
