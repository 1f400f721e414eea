//! The proof values of the cryptosuite `ecdsa-sd-2023` (Data Integrity ECDSA Cryptosuites 1.0,
//! 3.5): the base value that an issuer makes and the derived value that a holder makes of it.
//!
//! A value is CBOR (`cbor_core`) behind three bytes that say of which kind it is and by which hash,
//! as the text `u` and base64url without padding. `specs/Values` says which text spells a value, and
//! `specs/Refusals` which refusal of a text comes first.
#![tactic(auto)]

mod bytes;
mod decoding;
mod draft;
mod encoding;
mod fault;
mod headers;
mod items;
mod kinds;
mod laws;
mod lists;
mod parts;
mod value;

pub use base_types::{Memory, Sequence, Text};
pub use cbor_core::CborFault;
pub use decoding::{decode_base, decode_derived};
pub use digest_mac::{Digest, Hash};
pub use draft::{BaseDraft, draft_base};
pub use encoding::{encode_base, encode_derived};
pub use fault::{Part, ValueFault};
pub use laws::{
    a_header_tells_its_kind_and_hash, a_text_begins_as_its_kind_and_hash_say,
    a_text_has_one_outcome, a_text_is_of_one_kind_and_hash,
};
pub use value::{BaseValue, DerivedValue, MapEntry};
