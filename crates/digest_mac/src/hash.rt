//! The hashes that may be chosen (FIPS 180-4).

ghost use Rattle.std.specs.Prelude.{◌≡◌};
ghost use Rattle.digest_mac.specs.Digests.{block_size, digest_size};

/// A hash of the SHA-2 family (FIPS 180-4).
#[derive(Clone, Copy, Debug, PartialEq, Eq)]
pub enum Hash {
    /// SHA-256, with digests of 32 bytes (FIPS 180-4, 6.2).
    Sha256,
    /// SHA-384, with digests of 48 bytes (FIPS 180-4, 6.5).
    Sha384,
}

impl Hash {
    /// The length of a digest in bytes: 32 or 48.
    pub fn digest_size(self) -> usize
        ensures { result ≡ digest_size self }
    {
        match self {
            Hash::Sha256 => 32,
            Hash::Sha384 => 48,
        }
    }

    /// The length of the blocks that the hash works on, in bytes: 64 or 128.
    pub fn block_size(self) -> usize
        ensures { result ≡ block_size self }
    {
        match self {
            Hash::Sha256 => 64,
            Hash::Sha384 => 128,
        }
    }
}
