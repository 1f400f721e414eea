//! Writing proof values (Data Integrity ECDSA Cryptosuites 1.0, 3.5.2 and 3.5.7).

ghost use Rattle.std.specs.Prelude.{◌≡◌, ◌≤◌, ◌++◌, true, map, IfOk, Ok};
ghost use Rattle.base64.specs.GeneralPurpose.{IsBytes};
ghost use Rattle.cbor_core.specs.Writing.{item_nesting, count_of, keys_rise, encoding_of, fits};
ghost use Rattle.base_types.specs.Order.{rise};
ghost use Rattle.proof_cbor.specs.declared.value.MapEntry.{MapEntry};
ghost use Rattle.proof_cbor.specs.Values.{multibase_text, base_item, derived_item, digests_sized, base_proof_bytes, derived_proof_bytes, CanWriteBase, SpellsBase, SpellsDerived};
ghost use Rattle.proof_cbor.specs.Internal.Writing.{CanWriteDerived};
ghost use Rattle.proof_cbor.specs.Refusals.{ReadsBase, ReadsDerived};

use crate::headers::{Kind, header};
use crate::items::{item_of_base, item_of_derived};
use crate::value::{BaseValue, DerivedValue};
use base_types::{Memory, Text};
use base64::engine::general_purpose::URL_SAFE_NO_PAD;
use cbor_core::{Item, encode};
use std::alloc::Global;

/// The bytes of an item behind a header.
fn bytes_behind(alloc: Global, header: &[u8; 3], item: &Item) -> Result<Vec<u8>, Memory>
    requires keys { keys_rise item.now ≡ true }
    requires nesting { item_nesting item.now ≤ 4 }
    requires count { count_of item.now ≤ 100000 }
    ensures written { IfOk result (λ bytes. bytes.items ≡ header.now ++ encoding_of item.now) }
    ensures fits { IfOk result (λ _. fits item.now ≡ true) }
{
    let spelling = encode(alloc, item)?;
    let mut bytes = Vec::new(alloc);
    bytes.extend_from_slice(header.as_slice())?;
    bytes.extend_from_slice(&spelling)?;
    Ok(bytes)
}

/// The text of bytes: `u`, and base64url without padding.
pub fn text_in(alloc: Global, bytes: &[u8]) -> Result<Text, Memory>
    ensures text { IfOk result (λ text. text ≡ multibase_text bytes.now) }
    ensures proper { IsBytes bytes.now }
{
    let mut text = String::new(alloc);
    text.push('u')?;
    URL_SAFE_NO_PAD.encode_string(bytes, &mut text)?;
    Ok(Text::from_string(text))
}

/// The bytes of a base value.
#[tactic(auto, using(crate::proofs::Making::may_steps))]
pub fn bytes_of_base(alloc: Global, value: &BaseValue) -> Result<Vec<u8>, Memory>
    requires { count_of (base_item value.now) ≤ 100000 }
    ensures written { IfOk result (λ bytes. bytes.items ≡ base_proof_bytes value.now) }
    ensures can_write { IfOk result (λ _. CanWriteBase value.now) }
{
    let item = item_of_base(alloc, value)?;
    bytes_behind(alloc, &header(Kind::Base, value.hash), &item)
}

/// The bytes of a derived value.
#[tactic(auto, using(crate::proofs::Making::may_steps))]
fn bytes_of_derived(alloc: Global, value: &DerivedValue) -> Result<Vec<u8>, Memory>
    requires labels { rise (map (λ (e : MapEntry). e.number) value.now.labels) ≡ true }
    requires indexes { rise value.now.indexes ≡ true }
    requires digests { digests_sized value.now.hash value.now.labels ≡ true }
    requires count { count_of (derived_item value.now) ≤ 100000 }
    ensures written { IfOk result (λ bytes. bytes.items ≡ derived_proof_bytes value.now) }
    ensures can_write { IfOk result (λ _. CanWriteDerived value.now) }
{
    let item = item_of_derived(alloc, value)?;
    bytes_behind(alloc, &header(Kind::Derived, value.hash), &item)
}

/// The text of a base value with at most 100,000 items (Data Integrity ECDSA Cryptosuites 1.0,
/// 3.5.2).
pub fn encode_base(alloc: Global, value: &BaseValue) -> Result<Text, Memory>
    requires { count_of (base_item value.now) ≤ 100000 }
    // The text is `u` and base64url of the header and the item.
    ensures written { IfOk result (λ text. text ≡ multibase_text (base_proof_bytes value.now)) }
    // It spells the value.
    ensures spelled { IfOk result (λ text. SpellsBase value.now text) }
    // It reads back as the value.
    ensures reads_back { IfOk result (λ text. ReadsBase text (Ok value.now)) }
{
    let bytes = bytes_of_base(alloc, value)?;
    text_in(alloc, &bytes)
}

/// The text of a derived value with at most 100,000 items, keys of the label map counted, whose
/// label numbers and indexes rise and whose digests have the length of its hash (Data Integrity
/// ECDSA Cryptosuites 1.0, 3.5.7).
pub fn encode_derived(alloc: Global, value: &DerivedValue) -> Result<Text, Memory>
    requires labels { rise (map (λ (e : MapEntry). e.number) value.now.labels) ≡ true }
    requires indexes { rise value.now.indexes ≡ true }
    requires digests { digests_sized value.now.hash value.now.labels ≡ true }
    requires count { count_of (derived_item value.now) ≤ 100000 }
    // The text is `u` and base64url of the header and the item.
    ensures written { IfOk result (λ text. text ≡ multibase_text (derived_proof_bytes value.now)) }
    // It spells the value.
    ensures spelled { IfOk result (λ text. SpellsDerived value.now text) }
    // It reads back as the value.
    ensures reads_back { IfOk result (λ text. ReadsDerived text (Ok value.now)) }
{
    let bytes = bytes_of_derived(alloc, value)?;
    text_in(alloc, &bytes)
}
