//! What n-degree hashing gives over a table (RDF Dataset Canonicalization, 4.8).
use base_types::Sequence;
use digest_mac::HexDigest;

/// What n-degree hashing gives over a table: the hash, the numbers of the nodes that the issuer has
/// named, and whether a tie was met that counts.
#[derive(Debug, Drop)]
pub struct NodePath {
    pub hash: HexDigest,
    pub issuer: Sequence<usize>,
    pub tie: bool,
}
