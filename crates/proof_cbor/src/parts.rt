//! The five parts, and those of a fixed length.

ghost use Rattle.std.specs.Prelude.{◌≡◌, ◌∷◌};
ghost use Rattle.base_types.specs.Order.{rise};
ghost use Rattle.digest_mac.specs.Digests.{digest_size};
ghost use Rattle.cbor_core.specs.Internal.Results.{Gives};
ghost use Rattle.proof_cbor.specs.Internal.Reading.{is_memory, one_of, blob_of, entry_kind, digest_length, five_parts};

use crate::fault::{Part, ValueFault};
use crate::kinds::{blob_in, list_in};
use crate::value::MapEntry;
use cbor_core::{Item, Pair};
use digest_mac::{Digest, Hash};

/// A signature, of 64 bytes.
pub fn signature_in(part: Part, item: &Item) -> Result<[u8; 64], ValueFault>
    ensures { Gives is_memory (λ x. x) result (blob_of part 64 item.now) }
{
    let Some(content) = blob_in(item) else {
        return Err(ValueFault::Shape(part));
    };
    if content.len() != 64 {
        return Err(ValueFault::Length(part));
    }
    let mut bytes = [0u8; 64];
    bytes.copy_from_slice(content);
    Ok(bytes)
}

/// The name of a key, of 35 bytes.
pub fn key_in(part: Part, item: &Item) -> Result<[u8; 35], ValueFault>
    ensures { Gives is_memory (λ x. x) result (blob_of part 35 item.now) }
{
    let Some(content) = blob_in(item) else {
        return Err(ValueFault::Shape(part));
    };
    if content.len() != 35 {
        return Err(ValueFault::Length(part));
    }
    let mut bytes = [0u8; 35];
    bytes.copy_from_slice(content);
    Ok(bytes)
}

/// A secret, of 32 bytes.
pub fn secret_in(part: Part, item: &Item) -> Result<[u8; 32], ValueFault>
    ensures { Gives is_memory (λ x. x) result (blob_of part 32 item.now) }
{
    let Some(content) = blob_in(item) else {
        return Err(ValueFault::Shape(part));
    };
    if content.len() != 32 {
        return Err(ValueFault::Length(part));
    }
    let mut bytes = [0u8; 32];
    bytes.copy_from_slice(content);
    Ok(bytes)
}

/// An entry of a label map: a number and a digest by this hash.
pub fn entry_in(part: Part, hash: Hash, pair: &Pair) -> Result<MapEntry, ValueFault>
    ensures { Gives is_memory (λ x. x) result
        (one_of entry_kind digest_length part (digest_size hash) pair.now) }
{
    let Some(content) = blob_in(&pair.value) else {
        return Err(ValueFault::Shape(part));
    };
    let Some(digest) = Digest::from_slice(hash, content) else {
        return Err(ValueFault::Length(part));
    };
    Ok(MapEntry {
        number: pair.key,
        digest,
    })
}

/// The five parts of a value.
#[tactic(auto, using(crate::proofs::Five::five_steps))]
pub fn five_in(item: &Item) -> Result<(&Item, &Item, &Item, &Item, &Item), ValueFault>
    ensures { Gives is_memory (λ x. (x.0.now, x.1.now, x.2.now, x.3.now, x.4.now)) result
        (five_parts item.now) }
{
    let Some(items) = list_in(item) else {
        return Err(ValueFault::Shape(Part::Array));
    };
    if items.len() != 5 {
        return Err(ValueFault::Shape(Part::Array));
    }
    Ok((&items[0], &items[1], &items[2], &items[3], &items[4]))
}

/// Whether each number is below the next.
#[tactic(auto, using(crate::proofs::Rise::rise_steps))]
pub fn rises(numbers: &[u64]) -> bool
    ensures { result ≡ rise numbers.now }
{
    let [first, rest @ ..] = numbers else {
        return true;
    };
    let mut last = *first;
    for number in rest {
        if last >= *number {
            return false;
        }
        last = *number;
    }
    true
}
