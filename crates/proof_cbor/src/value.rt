//! The proof values of `ecdsa-sd-2023`.

use base_types::{Sequence, Text};
use digest_mac::{Digest, Hash};

/// A base proof value, which an issuer makes (Data Integrity ECDSA Cryptosuites 1.0, 3.5.2).
#[derive(Debug, Drop, PartialEq, Eq)]
pub struct BaseValue {
    /// The hash by which it was made.
    pub hash: Hash,
    /// The issuer's signature.
    pub signature: [u8; 64],
    /// The name of the statement key.
    pub key: [u8; 35],
    /// The key under which blank nodes were labelled.
    pub secret: [u8; 32],
    /// The signature of each statement that is not mandatory.
    pub signatures: Sequence<[u8; 64]>,
    /// The mandatory pointers.
    pub pointers: Sequence<Text>,
}

/// One entry of a label map: the number of a canonical label, and the digest that stands for it.
#[derive(Clone, Copy, Debug, PartialEq, Eq)]
pub struct MapEntry {
    pub number: u64,
    pub digest: Digest,
}

/// A derived proof value, which a holder makes (Data Integrity ECDSA Cryptosuites 1.0, 3.5.7).
#[derive(Debug, Drop, PartialEq, Eq)]
pub struct DerivedValue {
    /// The hash by which it was made.
    pub hash: Hash,
    /// The issuer's signature.
    pub signature: [u8; 64],
    /// The name of the statement key.
    pub key: [u8; 35],
    /// The signature of each kept statement that is not mandatory.
    pub signatures: Sequence<[u8; 64]>,
    /// The label map, by rising number.
    pub labels: Sequence<MapEntry>,
    /// The places of the mandatory statements, which rise.
    pub indexes: Sequence<u64>,
}
