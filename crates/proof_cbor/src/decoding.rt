//! Reading proof values (Data Integrity ECDSA Cryptosuites 1.0, 3.5.3 and 3.5.8).

ghost use Rattle.std.specs.Prelude.{◌≡◌, ◌≢◌, ◌≤◌, true, map, IfOk, Result, Ok, Err};
ghost use Rattle.cbor_core.specs.Writing.{count_of};
ghost use Rattle.base_types.specs.Order.{rise};
ghost use Rattle.proof_cbor.specs.declared.value.MapEntry.{MapEntry};
ghost use Rattle.proof_cbor.specs.declared.value.BaseValue.{BaseValue};
ghost use Rattle.proof_cbor.specs.declared.value.DerivedValue.{DerivedValue};
ghost use Rattle.proof_cbor.specs.Values.{base_item, derived_item, digests_sized, SpellsBase, SpellsDerived};
ghost use Rattle.cbor_core.specs.Internal.Results.{Gives};
ghost use Rattle.cbor_core.specs.Refusals.{UnlessMemory};
ghost use Rattle.proof_cbor.specs.declared.fault.ValueFault.{ValueFault};
ghost use Rattle.proof_cbor.specs.declared.fault.ValueFault.TheVariants.{Memory};
ghost use Rattle.proof_cbor.specs.Refusals.{ReadsBase, ReadsDerived};
ghost use Rattle.proof_cbor.specs.Internal.Reading.{is_memory, base_of, derived_of};

use crate::bytes::{bytes_in, item_in};
use crate::fault::{Part, ValueFault};
use crate::headers::Kind;
use crate::lists::{labels_in, signatures_in, texts_in, wholes_in};
use crate::parts::{five_in, key_in, rises, secret_in, signature_in};
use crate::value::{BaseValue, DerivedValue};
use cbor_core::Item;
use digest_mac::Hash;
use std::alloc::Global;

/// The base value by this hash that an item is.
#[tactic(auto, unfolding(crate::specs::Internal::Reading::base_of))]
fn base_in(alloc: Global, hash: Hash, item: &Item) -> Result<BaseValue, ValueFault>
    ensures { Gives is_memory (λ x. x) result (base_of hash item.now) }
{
    let (signature, key, secret, signatures, pointers) = five_in(item)?;
    let signature = signature_in(Part::BaseSignature, signature)?;
    let key = key_in(Part::PublicKey, key)?;
    let secret = secret_in(Part::HmacKey, secret)?;
    let signatures = signatures_in(alloc, Part::Signatures, signatures)?;
    let pointers = texts_in(alloc, Part::Pointers, pointers)?;
    Ok(BaseValue {
        hash,
        signature,
        key,
        secret,
        signatures,
        pointers,
    })
}

/// The derived value by this hash that an item is.
#[tactic(auto, unfolding(crate::specs::Internal::Reading::derived_of))]
fn derived_in(alloc: Global, hash: Hash, item: &Item) -> Result<DerivedValue, ValueFault>
    ensures { Gives is_memory (λ x. x) result (derived_of hash item.now) }
{
    let (signature, key, signatures, labels, indexes) = five_in(item)?;
    let signature = signature_in(Part::BaseSignature, signature)?;
    let key = key_in(Part::PublicKey, key)?;
    let signatures = signatures_in(alloc, Part::Signatures, signatures)?;
    let labels = labels_in(alloc, Part::LabelMap, hash, labels)?;
    let indexes = wholes_in(alloc, Part::Indexes, indexes)?;
    if !rises(indexes.as_slice()) {
        return Err(ValueFault::Indexes);
    }
    Ok(DerivedValue {
        hash,
        signature,
        key,
        signatures,
        labels,
        indexes,
    })
}

fn read_base(alloc: Global, text: &str) -> Result<BaseValue, ValueFault>
    ensures found { IfOk result (λ value. SpellsBase value text.now) }
    ensures reads { result ≢ Err Memory → ReadsBase text.now result }
{
    let bytes = bytes_in(alloc, text)?;
    let (hash, item) = item_in(alloc, Kind::Base, &bytes)?;
    base_in(alloc, hash, &item)
}

fn read_derived(alloc: Global, text: &str) -> Result<DerivedValue, ValueFault>
    ensures found { IfOk result (λ value. SpellsDerived value text.now) }
    ensures reads { result ≢ Err Memory → ReadsDerived text.now result }
{
    let bytes = bytes_in(alloc, text)?;
    let (hash, item) = item_in(alloc, Kind::Derived, &bytes)?;
    derived_in(alloc, hash, &item)
}

/// The base value that a text spells (Data Integrity ECDSA Cryptosuites 1.0, 3.5.3), by the hash
/// that its header names.
///
/// Each refusal is the first that applies, in the order of `ValueFault`.
pub fn decode_base(alloc: Global, text: &str) -> Result<BaseValue, ValueFault>
    // What is read is spelled by the text, all of it.
    ensures found { IfOk result (λ value. SpellsBase value text.now) }
    // It may be written: it keeps the limit on items.
    ensures count { IfOk result (λ value. count_of (base_item value) ≤ 100000) }
    // What is spelled within the limits is read.
    ensures only { (value : BaseValue) → SpellsBase value text.now
        → UnlessMemory Memory (Ok value) result }
    // The answer is what the text is: its value, or the fault with which it is refused.
    ensures reads { result ≢ Err Memory → ReadsBase text.now result }
    // There is no other answer.
    ensures exact { (outcome : Result BaseValue ValueFault) → ReadsBase text.now outcome
        → UnlessMemory Memory outcome result }
{
    read_base(alloc, text)
}

/// The derived value that a text spells (Data Integrity ECDSA Cryptosuites 1.0, 3.5.8), by the hash
/// that its header names.
///
/// Each refusal is the first that applies, in the order of `ValueFault`.
pub fn decode_derived(alloc: Global, text: &str) -> Result<DerivedValue, ValueFault>
    // What is read is spelled by the text, all of it.
    ensures found { IfOk result (λ value. SpellsDerived value text.now) }
    // It may be written: its labels and its indexes rise, its digests have the length of the hash,
    // and it keeps the limit on items.
    ensures labels { IfOk result
        (λ value. rise (map (λ (e : MapEntry). e.number) value.labels) ≡ true) }
    ensures indexes { IfOk result (λ value. rise value.indexes ≡ true) }
    ensures digests { IfOk result (λ value. digests_sized value.hash value.labels ≡ true) }
    ensures count { IfOk result (λ value. count_of (derived_item value) ≤ 100000) }
    // What is spelled within the limits is read.
    ensures only { (value : DerivedValue) → SpellsDerived value text.now
        → UnlessMemory Memory (Ok value) result }
    // The answer is what the text is: its value, or the fault with which it is refused.
    ensures reads { result ≢ Err Memory → ReadsDerived text.now result }
    // There is no other answer.
    ensures exact { (outcome : Result DerivedValue ValueFault) → ReadsDerived text.now outcome
        → UnlessMemory Memory outcome result }
{
    read_derived(alloc, text)
}
