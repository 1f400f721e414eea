//! Laws of the definitions, each proved of a function that does nothing.

ghost use Rattle.std.specs.Prelude.{◌≡◌, ℕ, List, Result, length, take, codes};
ghost use Rattle.digest_mac.specs.declared.hash.Hash.{Hash};
ghost use Rattle.digest_mac.specs.declared.hash.Hash.TheVariants.{Sha256, Sha384};
ghost use Rattle.proof_cbor.specs.declared.fault.ValueFault.{ValueFault};
ghost use Rattle.proof_cbor.specs.declared.headers.Kind.{Kind};
ghost use Rattle.proof_cbor.specs.declared.value.BaseValue.{BaseValue};
ghost use Rattle.proof_cbor.specs.declared.value.DerivedValue.{DerivedValue};
ghost use Rattle.proof_cbor.specs.Refusals.{ReadsBase, ReadsDerived};
ghost use Rattle.proof_cbor.specs.Values.{header, multibase_text, base_proof_bytes, derived_proof_bytes, SpellsBase, SpellsDerived};

/// A text is at most one base value, or is refused as one with one fault; and so for derived values.
pub fn a_text_has_one_outcome()
    ensures base { (text : List ℕ) (r s : Result BaseValue ValueFault) → ReadsBase text r
        → ReadsBase text s → r ≡ s }
    ensures derived { (text : List ℕ) (r s : Result DerivedValue ValueFault) → ReadsDerived text r
        → ReadsDerived text s → r ≡ s }
{}

/// The headers of different kinds differ, and those of different hashes.
pub fn a_header_tells_its_kind_and_hash()
    ensures { (kind other : Kind) (hash another : Hash)
        → header kind hash ≡ header other another → (kind ≡ other) × (hash ≡ another) }
{}

/// A text spells values of one kind and by one hash alone.
pub fn a_text_is_of_one_kind_and_hash()
    ensures kind { (text : List ℕ) (base : BaseValue) (derived : DerivedValue)
        → SpellsBase base text → SpellsDerived derived text → ⊥ }
    ensures base { (text : List ℕ) (one other : BaseValue)
        → SpellsBase one text → SpellsBase other text → one.hash ≡ other.hash }
    ensures derived { (text : List ℕ) (one other : DerivedValue)
        → SpellsDerived one text → SpellsDerived other text → one.hash ≡ other.hash }
{}

/// The first nine letters of what is written for a value: `u`, and base64url of the header and of
/// the heads of the list and of a signature of 64 bytes.
pub fn a_text_begins_as_its_kind_and_hash_say()
    ensures base_sha256 { (value : BaseValue) → value.hash ≡ Sha256 → length value.signature ≡ 64
        → take 9 (multibase_text (base_proof_bytes value)) ≡ codes "u2V0AhVhA" }
    ensures base_sha384 { (value : BaseValue) → value.hash ≡ Sha384 → length value.signature ≡ 64
        → take 9 (multibase_text (base_proof_bytes value)) ≡ codes "u2V0ghVhA" }
    ensures derived_sha256 { (value : DerivedValue) → value.hash ≡ Sha256
        → length value.signature ≡ 64
        → take 9 (multibase_text (derived_proof_bytes value)) ≡ codes "u2V0BhVhA" }
    ensures derived_sha384 { (value : DerivedValue) → value.hash ≡ Sha384
        → length value.signature ≡ 64
        → take 9 (multibase_text (derived_proof_bytes value)) ≡ codes "u2V0hhVhA" }
{}
