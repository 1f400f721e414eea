//! The bytes that say of which kind a proof value is, and by which hash.

ghost use Rattle.std.specs.Prelude.{◌≡◌};
ghost use Rattle.proof_cbor.specs.Values.{header};
ghost use Rattle.proof_cbor.specs.Internal.Reading.{hash_named};

use digest_mac::Hash;

/// A kind of proof value.
#[derive(Clone, Copy)]
pub enum Kind {
    /// One that an issuer makes (Data Integrity ECDSA Cryptosuites 1.0, 3.5.2).
    Base,
    /// One that a holder makes of it (Data Integrity ECDSA Cryptosuites 1.0, 3.5.7).
    Derived,
}

/// The three bytes before a value. Those by SHA-256 are the standard's (Data Integrity ECDSA
/// Cryptosuites 1.0, 3.5.2 and 3.5.7), those by SHA-384 are this project's own.
pub fn header(kind: Kind, hash: Hash) -> [u8; 3]
    ensures { result ≡ header kind hash }
{
    match (kind, hash) {
        (Kind::Base, Hash::Sha256) => [0xd9, 0x5d, 0x00],
        (Kind::Base, Hash::Sha384) => [0xd9, 0x5d, 0x20],
        (Kind::Derived, Hash::Sha256) => [0xd9, 0x5d, 0x01],
        (Kind::Derived, Hash::Sha384) => [0xd9, 0x5d, 0x21],
    }
}

/// The hash by which these bytes are the header of this kind.
pub fn hash_named(kind: Kind, front: &[u8]) -> Option<Hash>
    ensures { result ≡ hash_named kind front.now }
{
    if front == header(kind, Hash::Sha256).as_slice() {
        return Some(Hash::Sha256);
    }
    if front == header(kind, Hash::Sha384).as_slice() {
        return Some(Hash::Sha384);
    }
    None
}
