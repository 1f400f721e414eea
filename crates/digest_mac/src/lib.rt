//! Digests of bytes and keyed digests: SHA-256 and SHA-384 (FIPS 180-4) and HMAC (RFC 2104), and the
//! blank label of a digest, by the crates `sha2`, `hex` and `base64`.
//!
//! Nothing but `label_text` takes memory. `sha256` of a contract is `sha2`'s definition of the
//! standard's function on lists of bytes, so a caller can say which digest it holds. Where the hash
//! is chosen, `digest` of a contract is the digest by it, and a `Digest` is seen as the list of its
//! bytes.
#![tactic(auto)]

mod chosen;
mod digest;
mod hash;
mod label;
pub mod laws;
mod mac;
mod values;

pub use base_types::{Memory, Text};
pub use chosen::{digest_hex, digest_of};
pub use digest::{sha256, sha256_hex};
pub use hash::Hash;
pub use label::label_text;
pub use mac::hmac;
pub use values::{Digest, HexDigest};
