//! Names of keys, and signatures.

ghost use Rattle.std.specs.Prelude.{◌≡◌, ◌≢◌, ◌↔◌, length, IfSome, IsNone};

/// The name of a public key: the 35 bytes of its multikey form, two for its kind and 33 for the
/// compressed point (Data Integrity ECDSA Cryptosuites, 2.1.1). The device knows the secret key.
#[derive(Clone, Copy, Debug, PartialEq, Eq, PartialOrd, Ord)]
pub struct KeyName {
    pub bytes: [u8; 35],
}

/// A signature: 64 bytes, as ECDSA over P-256 gives (RFC 7518, 3.4).
#[derive(Clone, Copy, Debug, PartialEq, Eq)]
pub struct Signature {
    pub bytes: [u8; 64],
}

impl KeyName {
    /// The name with these bytes, or `None` where they are not 35. It takes no memory.
    pub fn from_slice(bytes: &[u8]) -> Option<KeyName>
        ensures name { IfSome result (λ name. name.bytes ≡ bytes.now) }
        ensures none { IsNone result ↔ (length bytes.now ≢ 35) }
    {
        match <[u8; 35]>::try_from(bytes) {
            Ok(bytes) => Some(KeyName { bytes }),
            Err(_) => None,
        }
    }
}
