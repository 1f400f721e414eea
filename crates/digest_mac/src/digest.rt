//! SHA-256 and SHA-384 (FIPS 180-4), as bytes and as hexadecimal digits.

ghost use Rattle.std.specs.Prelude.{◌≡◌, ◌++◌};
ghost use Rattle.sha2.specs.Sha256.{sha256 as sha256_of};
ghost use Rattle.sha2.specs.Sha512.{sha384 as sha384_of};
ghost use Rattle.digest_mac.specs.Digests.{digits, sha256_digits};
ghost use Rattle.digest_mac.specs.declared.hash.Hash.TheVariants.{Sha384 as BySha384};

use sha2::{Digest, Sha256, Sha384};

/// The 32 bytes of the SHA-256 digest of `bytes` (FIPS 180-4, 6.2). It takes no memory.
pub fn sha256(bytes: &[u8]) -> [u8; 32]
    ensures { result ≡ sha256_of bytes.now }
{
    Sha256::digest(bytes)
}

/// The same digest as 64 lower-case hexadecimal digits. It takes no memory.
#[tactic(auto, unfolding(crate::specs::Digests::sha256_digits))]
pub fn sha256_hex(bytes: &[u8]) -> [u8; 64]
    ensures { result ≡ sha256_digits bytes.now }
{
    let mut digits = [0; 64];
    let Ok(()) = hex::encode_to_slice(sha256(bytes).as_slice(), &mut digits) else {
        unreachable!()
    };
    digits
}

/// The 48 bytes of the SHA-384 digest of `bytes` (FIPS 180-4, 6.5).
pub(crate) fn sha384(bytes: &[u8]) -> [u8; 48]
    ensures { result ≡ sha384_of bytes.now }
{
    Sha384::digest(bytes)
}

/// The same digest as 96 lower-case hexadecimal digits.
#[tactic(auto, unfolding(crate::specs::Digests::digits, crate::specs::Digests::digest))]
pub(crate) fn sha384_hex(bytes: &[u8]) -> [u8; 96]
    ensures { result ≡ digits BySha384 bytes.now }
{
    let mut digits = [0; 96];
    let Ok(()) = hex::encode_to_slice(sha384(bytes).as_slice(), &mut digits) else {
        unreachable!()
    };
    digits
}

/// The digest of three pieces, one after another, by the hash `D`.
pub(crate) fn digest_pieces<D: Digest>(first: &[u8], second: &[u8], third: &[u8]) -> D::Output
    ensures { D.digest_of (first.now ++ second.now ++ third.now) result }
{
    let mut hasher = D::new();
    hasher.update(first);
    hasher.update(second);
    hasher.update(third);
    hasher.finalize()
}
