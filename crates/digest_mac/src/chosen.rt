//! Digests by the hash that is chosen.

ghost use Rattle.std.specs.Prelude.{◌≡◌, ◌++◌};
ghost use Rattle.digest_mac.specs.Digests.{digest, digits};

use crate::digest::{digest_pieces, sha256, sha256_hex, sha384, sha384_hex};
use crate::hash::Hash;
use crate::values::{Digest, HexDigest};

/// The digest of `bytes` (FIPS 180-4, 6.2 and 6.5). It takes no memory.
#[tactic(auto, unfolding(crate::specs::Digests::digest))]
pub fn digest_of(hash: Hash, bytes: &[u8]) -> Digest
    ensures { result ≡ digest hash bytes.now }
{
    match hash {
        Hash::Sha256 => Digest::of_32(sha256(bytes)),
        Hash::Sha384 => Digest::of_48(sha384(bytes)),
    }
}

/// The same digest in lower-case hexadecimal digits. It takes no memory.
#[tactic(auto, unfolding(crate::specs::Digests::digest, crate::specs::Digests::digits, crate::specs::Digests::sha256_digits))]
pub fn digest_hex(hash: Hash, bytes: &[u8]) -> HexDigest
    ensures { result ≡ digits hash bytes.now }
{
    match hash {
        Hash::Sha256 => HexDigest::of_64(sha256_hex(bytes)),
        Hash::Sha384 => HexDigest::of_96(sha384_hex(bytes)),
    }
}

/// The digest of three pieces, one after another.
#[tactic(auto, unfolding(crate::specs::Digests::digest))]
pub(crate) fn digest_of_pieces(hash: Hash, first: &[u8], second: &[u8], third: &[u8]) -> Digest
    ensures { result ≡ digest hash (first.now ++ second.now ++ third.now) }
{
    match hash {
        Hash::Sha256 => Digest::of_32(digest_pieces::<sha2::Sha256>(first, second, third)),
        Hash::Sha384 => Digest::of_48(digest_pieces::<sha2::Sha384>(first, second, third)),
    }
}
