//! The item of CBOR that a proof value is.

ghost use Rattle.std.specs.Prelude.{◌≡◌, map, true, IfOk, [], ◌∷◌};
ghost use Rattle.cbor_core.specs.declared.item.Item.TheVariants as v;
ghost use Rattle.proof_cbor.specs.Values.{all_sized, digests_sized, BaseSizes, DerivedSizes, pair_of, base_item, derived_item};

use crate::value::{BaseValue, DerivedValue, MapEntry};
use base_types::{Items, Memory, Sequence, Text};
use cbor_core::{Item, Pair};
use std::alloc::Global;

/// A byte string.
fn blob(alloc: Global, content: &[u8]) -> Result<Item, Memory>
    ensures { IfOk result (λ item. item ≡ v.Blob content.now) }
{
    Ok(Item::Blob(Sequence::from_vec(content.to_vec(alloc)?)))
}

/// The list of signatures.
#[tactic(auto, using(crate::proofs::Making::making_steps))]
fn signatures_item(alloc: Global, signatures: &[[u8; 64]]) -> Result<Item, Memory>
    ensures made { IfOk result (λ item. item ≡ v.List (map v.Blob signatures.now)) }
    ensures sized { IfOk result (λ _. all_sized 64 signatures.now ≡ true) }
{
    let mut items = Items::new(alloc);
    for signature in signatures {
        items.push(blob(alloc, signature.as_slice())?)?;
    }
    Ok(Item::List(items))
}

/// The list of pointers.
#[tactic(auto, using(crate::proofs::Making::making_steps))]
fn pointers_item(alloc: Global, pointers: &[Text]) -> Result<Item, Memory>
    ensures { IfOk result (λ item. item ≡ v.List (map v.Text pointers.now)) }
{
    let mut items = Items::new(alloc);
    for pointer in pointers {
        items.push(Item::Text(Text::from_str(alloc, pointer.as_str())?))?;
    }
    Ok(Item::List(items))
}

/// The label map.
#[tactic(auto, using(crate::proofs::Making::making_steps))]
fn labels_item(alloc: Global, labels: &[MapEntry]) -> Result<Item, Memory>
    ensures { IfOk result (λ item. item ≡ v.Map (map pair_of labels.now)) }
{
    let mut pairs = Items::new(alloc);
    for label in labels {
        let value = blob(alloc, label.digest.as_slice())?;
        pairs.push(Pair {
            key: label.number,
            value,
        })?;
    }
    Ok(Item::Map(pairs))
}

/// The list of indexes.
#[tactic(auto, using(crate::proofs::Making::making_steps))]
fn indexes_item(alloc: Global, indexes: &[u64]) -> Result<Item, Memory>
    ensures { IfOk result (λ item. item ≡ v.List (map v.Whole indexes.now)) }
{
    let mut items = Items::new(alloc);
    for index in indexes {
        items.push(Item::Whole(*index))?;
    }
    Ok(Item::List(items))
}

/// A list of five items.
fn five_item(
    alloc: Global,
    first: Item,
    second: Item,
    third: Item,
    fourth: Item,
    fifth: Item,
) -> Result<Item, Memory>
    ensures { IfOk result (λ item. item ≡ v.List (first ∷ second ∷ third ∷ fourth ∷ fifth ∷ [])) }
{
    let mut items = Items::new(alloc);
    items.push(first)?;
    items.push(second)?;
    items.push(third)?;
    items.push(fourth)?;
    items.push(fifth)?;
    Ok(Item::List(items))
}

/// The item that a base value is.
#[tactic(auto, unfolding(crate::specs::Values::base_item))]
pub fn item_of_base(alloc: Global, value: &BaseValue) -> Result<Item, Memory>
    ensures made { IfOk result (λ item. item ≡ base_item value.now) }
    ensures sizes { IfOk result (λ _. BaseSizes value.now) }
{
    let signature = blob(alloc, value.signature.as_slice())?;
    let key = blob(alloc, value.key.as_slice())?;
    let secret = blob(alloc, value.secret.as_slice())?;
    let signatures = signatures_item(alloc, value.signatures.as_slice())?;
    let pointers = pointers_item(alloc, value.pointers.as_slice())?;
    five_item(alloc, signature, key, secret, signatures, pointers)
}

/// The item that a derived value is.
#[tactic(auto, unfolding(crate::specs::Values::derived_item))]
pub fn item_of_derived(alloc: Global, value: &DerivedValue) -> Result<Item, Memory>
    requires { digests_sized value.now.hash value.now.labels ≡ true }
    ensures made { IfOk result (λ item. item ≡ derived_item value.now) }
    ensures sizes { IfOk result (λ _. DerivedSizes value.now) }
{
    let signature = blob(alloc, value.signature.as_slice())?;
    let key = blob(alloc, value.key.as_slice())?;
    let signatures = signatures_item(alloc, value.signatures.as_slice())?;
    let labels = labels_item(alloc, value.labels.as_slice())?;
    let indexes = indexes_item(alloc, value.indexes.as_slice())?;
    five_item(alloc, signature, key, signatures, labels, indexes)
}
