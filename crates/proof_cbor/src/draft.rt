//! A base value whose signature is still to come.

ghost use Rattle.std.specs.Prelude.{◌≡◌, ◌≤◌, ◌+◌, ◌++◌, length, take, drop, string_bytes, IfOk, Ok};
ghost use Rattle.std.specs.Str.{IsUtf8};
ghost use Rattle.base64.specs.Engines.{url_safe_no_pad};
ghost use Rattle.base64.specs.GeneralPurpose.{IsBytes, encoded_size_of};
ghost use Rattle.cbor_core.specs.Writing.{count_of};
ghost use Rattle.proof_cbor.specs.declared.value.BaseValue.{BaseValue};
ghost use Rattle.proof_cbor.specs.Refusals.{ReadsBase};
ghost use Rattle.proof_cbor.specs.Values.{multibase_text, base_item, base_proof_bytes, with_signature, CanWriteBase, IsDraft, SpellsBase};

use crate::encoding::{bytes_of_base, text_in};
use crate::value::BaseValue;
use base_types::{Memory, Text};
use base64::engine::general_purpose::URL_SAFE_NO_PAD;
use std::alloc::Global;
use std::marker::Model;

/// A base value whose signature is still to come, with all the memory that its text needs.
/// Contracts see it as the bytes of the value.
#[derive(Drop)]
pub struct BaseDraft {
    bytes: Vec<u8>,
    /// A buffer of the text's length.
    text: Vec<u8>,
}

impl Model for BaseDraft {
    ghost use Rattle.std.specs.Prelude.{◌≡◌, ◌≤◌, ◌+◌, List, ℕ, length};
    ghost use Rattle.base64.specs.Engines.{url_safe_no_pad};
    ghost use Rattle.base64.specs.GeneralPurpose.{encoded_size_of};

    ghost Value = { List ℕ };

    ghost view = { λ d. d.bytes.items };

    ghost invariant = { λ d. (70 ≤ length d.bytes.items)
        × (length d.text.items ≡ 1 + encoded_size_of url_safe_no_pad (length d.bytes.items)) };
}

/// Puts a signature over the one in the bytes of a base value: it is behind the header and two
/// heads.
#[tactic(auto, using(crate::proofs::Drafts::draft_steps))]
fn put_signature(bytes: &mut [u8], signature: &[u8; 64])
    requires { 70 ≤ length bytes.old }
    ensures { bytes.new ≡ take 6 bytes.old ++ (signature.now ++ drop 70 bytes.old) }
{
    bytes[6..70].copy_from_slice(signature.as_slice());
}

/// Writes the text of bytes into a buffer of its length.
#[tactic(auto, using(crate::proofs::Drafts::draft_steps))]
fn write_text(bytes: &[u8], text: &mut [u8])
    requires { length text.old ≡ 1 + encoded_size_of url_safe_no_pad (length bytes.now) }
    ensures { text.new ≡ multibase_text bytes.now }
{
    text[0] = b'u';
    let Ok(_written) = URL_SAFE_NO_PAD.encode_slice(bytes, &mut text[1..]) else {
        unreachable!()
    };
}

/// The bytes of a base value with this signature in place of its own.
#[tactic(auto, using(crate::proofs::Drafts::draft_steps))]
fn with_signature(bytes: Vec<u8>, signature: &[u8; 64]) -> Vec<u8>
    requires { 70 ≤ length bytes.items }
    ensures bytes { result.items ≡ take 6 bytes.items ++ (signature.now ++ drop 70 bytes.items) }
    ensures long { length signature.now ≡ 64 }
{
    let mut bytes = bytes;
    put_signature(&mut bytes, signature);
    bytes
}

/// The text of bytes, in a buffer of its length.
#[tactic(auto, using(crate::proofs::Drafts::draft_steps))]
fn text_over(bytes: &[u8], buffer: Vec<u8>) -> Text
    requires { length buffer.items ≡ 1 + encoded_size_of url_safe_no_pad (length bytes.now) }
    ensures text { result ≡ multibase_text bytes.now }
    ensures proper { IsBytes bytes.now }
{
    let mut buffer = buffer;
    write_text(bytes, &mut buffer);
    match String::from_utf8(buffer) {
        Ok(text) => Text::from_string(text),
        Err(_) => unreachable!(),
    }
}

/// A draft of a base value with at most 100,000 items, keys counted. It takes all the memory that
/// the text needs, whatever the signature will be.
#[tactic(auto, using(crate::proofs::Drafts::draft_steps))]
pub fn draft_base(alloc: Global, value: &BaseValue) -> Result<BaseDraft, Memory>
    requires { count_of (base_item value.now) ≤ 100000 }
    ensures draft { IfOk result (λ draft. IsDraft value.now draft) }
    ensures can_write { IfOk result (λ _. CanWriteBase value.now) }
{
    let bytes = bytes_of_base(alloc, value)?;
    let text = text_in(alloc, &bytes)?.into_string().into_bytes();
    Ok(BaseDraft { bytes, text })
}

impl BaseDraft {
    /// The text of the value with this signature in place of its own. It takes no memory.
    #[tactic(auto, using(crate::proofs::Drafts::draft_steps))]
    pub fn finish(self, signature: &[u8; 64]) -> Text
        ensures text { (value : BaseValue) → IsDraft value self
            → result ≡ multibase_text (base_proof_bytes (with_signature value signature.now)) }
        // It spells that value.
        ensures spelled { (value : BaseValue) → IsDraft value self
            → SpellsBase (with_signature value signature.now) result }
        // It reads back as that value.
        ensures reads_back { (value : BaseValue) → IsDraft value self
            → ReadsBase result (Ok (with_signature value signature.now)) }
        ensures long { length signature.now ≡ 64 }
    {
        let BaseDraft { bytes, text } = self;
        let bytes = with_signature(bytes, signature);
        text_over(&bytes, text)
    }
}
