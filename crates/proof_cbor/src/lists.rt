//! The parts that are lists and maps.

ghost use Rattle.std.specs.Prelude.{◌≡◌, [], is_some, length};
ghost use Rattle.std.specs.Option.{ok_or};
ghost use Rattle.digest_mac.specs.Digests.{digest_size};
ghost use Rattle.proof_cbor.specs.declared.fault.ValueFault.TheVariants.{Shape};
ghost use Rattle.cbor_core.specs.Internal.Results.{Gives};
ghost use Rattle.proof_cbor.specs.Internal.Reading.{is_memory, each_is, blob_kind, text_kind, whole_kind, entry_kind, digest_length, ones_from, blobs_of, texts_of, wholes_of, label_entries_of};

use crate::fault::{Part, ValueFault};
use crate::kinds::{blob_in, list_in, map_in, text_in, whole_in};
use crate::parts::{entry_in, signature_in};
use crate::value::MapEntry;
use base_types::{Sequence, Text};
use cbor_core::{Item, Pair};
use digest_mac::Hash;
use std::alloc::Global;

fn texts(alloc: Global, part: Part, items: &[Item]) -> Result<Sequence<Text>, ValueFault>
    ensures { Gives is_memory (λ x. x) result (ok_or (each_is text_kind items.now) (Shape part)) }
{
    let mut texts = Sequence::new(alloc);
    for item in items {
        let Some(text) = text_in(item) else {
            return Err(ValueFault::Shape(part));
        };
        texts.push(Text::from_str(alloc, text)?)?;
    }
    Ok(texts)
}

/// The texts of a list.
pub fn texts_in(alloc: Global, part: Part, item: &Item) -> Result<Sequence<Text>, ValueFault>
    ensures { Gives is_memory (λ x. x) result (texts_of part item.now) }
{
    let Some(items) = list_in(item) else {
        return Err(ValueFault::Shape(part));
    };
    texts(alloc, part, items)
}

fn wholes(alloc: Global, part: Part, items: &[Item]) -> Result<Sequence<u64>, ValueFault>
    ensures { Gives is_memory (λ x. x) result (ok_or (each_is whole_kind items.now) (Shape part)) }
{
    let mut wholes = Sequence::new(alloc);
    for item in items {
        let Some(whole) = whole_in(item) else {
            return Err(ValueFault::Shape(part));
        };
        wholes.push(whole)?;
    }
    Ok(wholes)
}

/// The whole numbers of a list.
pub fn wholes_in(alloc: Global, part: Part, item: &Item) -> Result<Sequence<u64>, ValueFault>
    ensures { Gives is_memory (λ x. x) result (wholes_of part item.now) }
{
    let Some(items) = list_in(item) else {
        return Err(ValueFault::Shape(part));
    };
    wholes(alloc, part, items)
}

/// Whether each item is a byte string.
fn are_blobs(items: &[Item]) -> bool
    ensures { result ≡ is_some (each_is blob_kind items.now) }
{
    for item in items {
        let Some(_content) = blob_in(item) else {
            return false;
        };
    }
    true
}

fn signatures(alloc: Global, part: Part, items: &[Item]) -> Result<Sequence<[u8; 64]>, ValueFault>
    ensures { Gives is_memory (λ x. x) result (ones_from blob_kind length part 64 [] items.now) }
{
    let mut signatures = Sequence::new(alloc);
    for item in items {
        let signature = signature_in(part, item)?;
        signatures.push(signature)?;
    }
    Ok(signatures)
}

/// The signatures of a list, of 64 bytes each.
#[tactic(auto, using(crate::proofs::Each::one_steps))]
pub fn signatures_in(
    alloc: Global,
    part: Part,
    item: &Item,
) -> Result<Sequence<[u8; 64]>, ValueFault>
    ensures { Gives is_memory (λ x. x) result (blobs_of part 64 item.now) }
{
    let Some(items) = list_in(item) else {
        return Err(ValueFault::Shape(part));
    };
    if !are_blobs(items) {
        return Err(ValueFault::Shape(part));
    }
    signatures(alloc, part, items)
}

/// Whether the value of each pair is a byte string.
fn are_entries(pairs: &[Pair]) -> bool
    ensures { result ≡ is_some (each_is entry_kind pairs.now) }
{
    for pair in pairs {
        let Some(_content) = blob_in(&pair.value) else {
            return false;
        };
    }
    true
}

fn entries(
    alloc: Global,
    part: Part,
    hash: Hash,
    pairs: &[Pair],
) -> Result<Sequence<MapEntry>, ValueFault>
    ensures { Gives is_memory (λ x. x) result
        (ones_from entry_kind digest_length part (digest_size hash) [] pairs.now) }
{
    let mut entries = Sequence::new(alloc);
    for pair in pairs {
        let entry = entry_in(part, hash, pair)?;
        entries.push(entry)?;
    }
    Ok(entries)
}

/// The entries of a map from numbers to digests, each as long as the hash says.
#[tactic(auto, using(crate::proofs::Each::one_steps))]
pub fn labels_in(
    alloc: Global,
    part: Part,
    hash: Hash,
    item: &Item,
) -> Result<Sequence<MapEntry>, ValueFault>
    ensures { Gives is_memory (λ x. x) result
        (label_entries_of part (digest_size hash) item.now) }
{
    let Some(pairs) = map_in(item) else {
        return Err(ValueFault::Shape(part));
    };
    if !are_entries(pairs) {
        return Err(ValueFault::Shape(part));
    }
    entries(alloc, part, hash, pairs)
}
