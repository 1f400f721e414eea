//! The bytes of a text, and the item behind a header.

ghost use Rattle.std.specs.Prelude.{◌≡◌, IfOk};
ghost use Rattle.proof_cbor.specs.Values.{IsText};
ghost use Rattle.cbor_core.specs.Internal.Results.{Gives};
ghost use Rattle.cbor_core.specs.Internal.Reading.{reading};
ghost use Rattle.proof_cbor.specs.Internal.Reading.{is_memory, multibase_bytes, item_of, item_behind};

use crate::fault::ValueFault;
use crate::headers::{Kind, hash_named};
use base64::DecodeAllocError;
use base64::engine::general_purpose::URL_SAFE_NO_PAD;
use cbor_core::{CborFault, Item, decode};
use digest_mac::Hash;
use std::alloc::Global;

/// The bytes of a text: `u`, and strict base64url without padding.
pub fn bytes_in(alloc: Global, text: &str) -> Result<Vec<u8>, ValueFault>
    ensures exact { Gives is_memory (λ x. x.items) result (multibase_bytes text.now) }
    ensures text { IfOk result (λ bytes. IsText text.now bytes.items) }
{
    let [b'u', rest @ ..] = text.as_bytes() else {
        return Err(ValueFault::NotMultibase);
    };
    match URL_SAFE_NO_PAD.decode(alloc, rest) {
        Ok(bytes) => Ok(bytes),
        Err(DecodeAllocError::OutOfMemory) => Err(ValueFault::Memory),
        Err(DecodeAllocError::DecodeError(_)) => Err(ValueFault::NotMultibase),
    }
}

/// The item that all of the bytes are.
#[tactic(auto, using(crate::proofs::RefusingTexts::item_steps))]
fn item_from(alloc: Global, bytes: &[u8]) -> Result<Item, ValueFault>
    ensures { Gives is_memory (λ x. x) result (item_of (reading bytes.now)) }
{
    match decode(alloc, bytes) {
        Ok(item) => Ok(item),
        Err(CborFault::Memory) => Err(ValueFault::Memory),
        Err(fault) => Err(ValueFault::Cbor(fault)),
    }
}

/// The item behind a header of this kind, and the hash that the header names.
#[tactic(auto, unfolding(crate::specs::Internal::Reading::item_behind))]
pub fn item_in(alloc: Global, kind: Kind, bytes: &[u8]) -> Result<(Hash, Item), ValueFault>
    ensures { Gives is_memory (λ x. x) result (item_behind kind bytes.now) }
{
    if bytes.len() < 3 {
        return Err(ValueFault::Header);
    }
    let (front, rest) = bytes.split_at(3);
    let Some(hash) = hash_named(kind, front) else {
        return Err(ValueFault::Header);
    };
    let item = item_from(alloc, rest)?;
    Ok((hash, item))
}
