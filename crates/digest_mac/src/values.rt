//! A digest by either hash, as bytes and as hexadecimal digits. Contracts see the list of its bytes,
//! or of the codes of its digits.

ghost use Rattle.std.specs.Prelude.{◌≡◌, ◌≢◌, ◌↔◌, length, IfSome, IsNone};
ghost use Rattle.std.specs.Str.{IsAscii};
ghost use Rattle.digest_mac.specs.Arrays.{bytes_of, digits_of};
ghost use Rattle.digest_mac.specs.Digests.{digest_size};

use crate::hash::Hash;
use std::cmp::Ordering;
use std::marker::Model;
use std::str;

/// The bytes of a digest by SHA-256 or by SHA-384.
#[derive(Clone, Copy, Debug)]
enum Bytes {
    Of32([u8; 32]),
    Of48([u8; 48]),
}

impl Bytes {
    fn as_slice(&self) -> &[u8]
        ensures { result.now ≡ bytes_of self.now }
    {
        match self {
            Bytes::Of32(bytes) => bytes.as_slice(),
            Bytes::Of48(bytes) => bytes.as_slice(),
        }
    }
}

/// A digest: 32 bytes by SHA-256, or 48 by SHA-384.
#[derive(Clone, Copy, Debug)]
pub struct Digest {
    bytes: Bytes,
}

impl Model for Digest {
    ghost use Rattle.std.specs.Prelude.{◌≡◌, List, ℕ, length};
    ghost use Rattle.digest_mac.specs.Arrays.{bytes_of, count_of_bytes, bytes_from, bytes_from-bytes_of};

    ghost Value = { List ℕ };

    ghost view = { λ d. bytes_of d.bytes };

    ghost invariant = { λ d. length (bytes_of d.bytes) ≡ count_of_bytes d.bytes };

    ghost inverse = { λ xs. record { bytes = bytes_from xs } };

    ghost inverse_ok = { λ d h i. record { bytes = bytes_from-bytes_of d.bytes h i } };
}

impl Digest {
    /// A digest of SHA-256.
    pub(crate) fn of_32(bytes: [u8; 32]) -> Digest
        ensures { result ≡ bytes }
    {
        Digest {
            bytes: Bytes::Of32(bytes),
        }
    }

    /// A digest of SHA-384.
    pub(crate) fn of_48(bytes: [u8; 48]) -> Digest
        ensures { result ≡ bytes }
    {
        Digest {
            bytes: Bytes::Of48(bytes),
        }
    }

    /// The digest by this hash that has these bytes, or `None` where they are not as many as a
    /// digest has. It takes no memory.
    pub fn from_slice(hash: Hash, bytes: &[u8]) -> Option<Digest>
        ensures digest { IfSome result (λ digest. digest ≡ bytes.now) }
        ensures none { IsNone result ↔ (length bytes.now ≢ digest_size hash) }
    {
        match hash {
            Hash::Sha256 => match <[u8; 32]>::try_from(bytes) {
                Ok(bytes) => Some(Digest::of_32(bytes)),
                Err(_) => None,
            },
            Hash::Sha384 => match <[u8; 48]>::try_from(bytes) {
                Ok(bytes) => Some(Digest::of_48(bytes)),
                Err(_) => None,
            },
        }
    }

    /// Its bytes, 32 or 48.
    pub fn as_slice(&self) -> &[u8]
        ensures { result.now ≡ self.now }
    {
        self.bytes.as_slice()
    }
}

impl PartialEq for Digest {
    ghost use Rattle.std.specs.Prelude.{◌==◌};
    ghost use Rattle.std.specs.Cmp.Rules.{comparing};
    ghost use Rattle.std.specs.Cmp.Lexicographic.{pointwise};
    ghost use Rattle.std.proofs.Common.{rules};

    ghost eq = { pointwise ◌==◌ };

    ghost laws = { Prim.search (comparing, rules) };

    fn eq(&self, other: &Digest) -> bool {
        self.as_slice() == other.as_slice()
    }
}

impl Eq for Digest {
    ghost use Rattle.std.specs.Cmp.Rules.{comparing};
    ghost use Rattle.std.proofs.Common.{rules};

    ghost laws = { Prim.search (comparing, rules) };
}

/// The digits of a digest by SHA-256 or by SHA-384.
#[derive(Clone, Copy, Debug)]
enum Digits {
    Of64([u8; 64]),
    Of96([u8; 96]),
}

impl Digits {
    fn as_slice(&self) -> &[u8]
        ensures { result.now ≡ digits_of self.now }
    {
        match self {
            Digits::Of64(digits) => digits.as_slice(),
            Digits::Of96(digits) => digits.as_slice(),
        }
    }
}

/// The lower-case hexadecimal digits of a digest: 64 by SHA-256, or 96 by SHA-384.
#[derive(Clone, Copy, Debug)]
pub struct HexDigest {
    digits: Digits,
}

impl Model for HexDigest {
    ghost use Rattle.std.specs.Prelude.{◌≡◌, List, ℕ, length};
    ghost use Rattle.std.specs.Str.{IsAscii};
    ghost use Rattle.digest_mac.specs.Arrays.{digits_of, count_of_digits, digits_from, digits_from-digits_of};

    ghost Value = { List ℕ };

    ghost view = { λ d. digits_of d.digits };

    ghost invariant = { λ d. (length (digits_of d.digits) ≡ count_of_digits d.digits)
        × IsAscii (digits_of d.digits) };

    ghost inverse = { λ xs. record { digits = digits_from xs } };

    ghost inverse_ok = { λ d h i. record { digits = digits_from-digits_of d.digits h.0 i } };
}

impl HexDigest {
    /// The digits of a digest of SHA-256.
    pub(crate) fn of_64(digits: [u8; 64]) -> HexDigest
        requires { IsAscii digits }
        ensures { result ≡ digits }
    {
        HexDigest {
            digits: Digits::Of64(digits),
        }
    }

    /// The digits of a digest of SHA-384.
    pub(crate) fn of_96(digits: [u8; 96]) -> HexDigest
        requires { IsAscii digits }
        ensures { result ≡ digits }
    {
        HexDigest {
            digits: Digits::Of96(digits),
        }
    }

    /// The digits, 64 or 96, in lower case.
    pub fn as_str(&self) -> &str
        ensures { result.now ≡ self.now }
    {
        match str::from_utf8(self.digits.as_slice()) {
            Ok(text) => text,
            Err(_) => unreachable!(),
        }
    }
}

impl PartialEq for HexDigest {
    ghost use Rattle.std.specs.Prelude.{◌==◌};
    ghost use Rattle.std.specs.Cmp.Rules.{comparing};
    ghost use Rattle.std.specs.Cmp.Lexicographic.{pointwise};
    ghost use Rattle.std.proofs.Common.{rules};

    ghost eq = { pointwise ◌==◌ };

    ghost laws = { Prim.search (comparing, rules) };

    fn eq(&self, other: &HexDigest) -> bool {
        self.as_str() == other.as_str()
    }
}

impl Eq for HexDigest {
    ghost use Rattle.std.specs.Cmp.Rules.{comparing};
    ghost use Rattle.std.proofs.Common.{rules};

    ghost laws = { Prim.search (comparing, rules) };
}

impl PartialOrd for HexDigest {
    ghost use Rattle.std.specs.Ordering.{nat_cmp, as_partial_cmp};
    ghost use Rattle.std.specs.Cmp.Rules.{comparing};
    ghost use Rattle.std.specs.Cmp.Lexicographic.{slice_cmp};
    ghost use Rattle.std.proofs.Common.{rules};

    ghost partial_cmp = { as_partial_cmp (slice_cmp nat_cmp) };

    ghost laws = { Prim.search (comparing, rules) };

    fn partial_cmp(&self, other: &HexDigest) -> Option<Ordering> {
        Some(self.cmp(other))
    }
}

impl Ord for HexDigest {
    ghost use Rattle.std.specs.Ordering.{nat_cmp};
    ghost use Rattle.std.specs.Cmp.Rules.{comparing};
    ghost use Rattle.std.specs.Cmp.Lexicographic.{slice_cmp};
    ghost use Rattle.std.proofs.Common.{rules};

    ghost cmp = { slice_cmp nat_cmp };

    ghost total = { Prim.search (comparing, rules) };

    ghost matches_partial_cmp = { Prim.search (comparing, rules) };

    ghost matches_eq = { Prim.search (comparing, rules) };

    fn cmp(&self, other: &HexDigest) -> Ordering {
        self.as_str().cmp(other.as_str())
    }
}
