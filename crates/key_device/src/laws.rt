//! Laws of the definitions, each proved of a function that does nothing.

ghost use Rattle.std.specs.Prelude.{◌≡◌, ◌↔◌, ◌+◌, ◌%◌, ◌^◌, ℕ, List, [], ◌∷◌, ◌++◌, true, false, codes, replicate, IsTrue};
ghost use Rattle.rand_chacha.specs.ChaCha.{ChaCha, of_seed};
ghost use Rattle.digest_mac.specs.Digests.{keyed_digest};
ghost use Rattle.digest_mac.specs.declared.hash.Hash.TheVariants.{Sha256};
ghost use Rattle.key_device.specs.declared.keys.KeyName.{KeyName};
ghost use Rattle.key_device.specs.declared.keys.Signature.{Signature};
ghost use Rattle.key_device.specs.Devices.{AcceptsSame, OwnsSame};
ghost use Rattle.key_device.specs.HmacDevices.{HmacState, owns_name, hmac_signature, hmac_accepts, fresh_bytes, fresh_name, hmac_meaning};
ghost use Rattle.key_device.specs.Ledgers.{numbered_key};

/// What a device by HMAC owns and accepts is decided by its root, whatever its seed is and however
/// much it has drawn. So what one device signed is accepted by another of the same root.
pub fn a_root_decides_what_is_accepted()
    ensures ownership { (one other : HmacState)
        → OwnsSame (hmac_meaning one) (hmac_meaning other) }
    ensures acceptance { (one other : HmacState) → one.root ≡ other.root
        → AcceptsSame (hmac_meaning one) (hmac_meaning other) }
{}

/// A device by HMAC owns the names that begin with two zero bytes: those of its fresh keys, and no
/// fresh key of a ledger.
pub fn names_that_begin_with_zeros_are_owned()
    ensures owned { (name : KeyName) → IsTrue (owns_name name)
        ↔ ((rest : List ℕ) × (name.bytes ≡ 0 ∷ 0 ∷ rest)) }
    ensures fresh { (bytes : List ℕ) → owns_name (fresh_name bytes) ≡ true }
    ensures of_a_ledger { (n : ℕ) → owns_name (numbered_key n) ≡ false }
{}

/// On some bytes a device by HMAC accepts one signature under a name that it owns, and none under
/// another name.
pub fn one_signature_is_accepted()
    ensures { (root bytes : List ℕ) (name : KeyName) (signature : Signature)
        → IsTrue (hmac_accepts root name bytes signature)
        ↔ (IsTrue (owns_name name) × (signature ≡ hmac_signature root name bytes)) }
{}

/// The second test case of RFC 4231 (4.3), and a signature as another implementation makes it.
pub fn worked_signature()
    ensures of_the_rfc { keyed_digest Sha256 (codes "Jefe") (codes "what do ya want for nothing?")
        ≡ 0x5b ∷ 0xdc ∷ 0xc1 ∷ 0x46 ∷ 0xbf ∷ 0x60 ∷ 0x75 ∷ 0x4e ∷ 0x6a ∷ 0x04 ∷ 0x24 ∷ 0x26
        ∷ 0x08 ∷ 0x95 ∷ 0x75 ∷ 0xc7 ∷ 0x5a ∷ 0x00 ∷ 0x3f ∷ 0x08 ∷ 0x9d ∷ 0x27 ∷ 0x39 ∷ 0x83
        ∷ 0x9d ∷ 0xec ∷ 0x58 ∷ 0xb9 ∷ 0x64 ∷ 0xec ∷ 0x38 ∷ 0x43 ∷ [] }
    ensures signature { (hmac_signature (codes "the root of keys, in 32 letters.")
        (fresh_name (codes "0123456789abcdef0123456789abcdef")) (codes "abc")).bytes
        ≡ 0x64 ∷ 0x8e ∷ 0x07 ∷ 0x34 ∷ 0x1b ∷ 0xa3 ∷ 0x15 ∷ 0x68 ∷ 0x8e ∷ 0x53 ∷ 0x99 ∷ 0x4e
        ∷ 0x40 ∷ 0x3c ∷ 0x1f ∷ 0x11 ∷ 0x74 ∷ 0xd5 ∷ 0x16 ∷ 0x56 ∷ 0xf9 ∷ 0x19 ∷ 0x6c ∷ 0xbe
        ∷ 0x97 ∷ 0x73 ∷ 0x9d ∷ 0x59 ∷ 0x22 ∷ 0x51 ∷ 0xc1 ∷ 0xa6 ∷ 0x0b ∷ 0xa2 ∷ 0x2e ∷ 0x00
        ∷ 0xca ∷ 0x98 ∷ 0x84 ∷ 0xc9 ∷ 0x1b ∷ 0x01 ∷ 0xe4 ∷ 0xd2 ∷ 0xfe ∷ 0x47 ∷ 0x30 ∷ 0x84
        ∷ 0x77 ∷ 0xc3 ∷ 0x8d ∷ 0x82 ∷ 0x35 ∷ 0xa9 ∷ 0x3f ∷ 0x69 ∷ 0x57 ∷ 0x06 ∷ 0x25 ∷ 0x8b
        ∷ 0x0e ∷ 0xf7 ∷ 0xe7 ∷ 0xf3 ∷ [] }
{}

/// The first 32 bytes that are drawn under a seed of zeros, and those behind 16 words under another
/// seed: the front of the blocks of RFC 8439's test vectors 1 and 3 (A.1).
pub fn worked_fresh_bytes()
    ensures first { (fresh_bytes (of_seed (replicate 32 0))).0
        ≡ 0x76 ∷ 0xb8 ∷ 0xe0 ∷ 0xad ∷ 0xa0 ∷ 0xf1 ∷ 0x3d ∷ 0x90 ∷ 0x40 ∷ 0x5d ∷ 0x6a ∷ 0xe5
        ∷ 0x53 ∷ 0x86 ∷ 0xbd ∷ 0x28 ∷ 0xbd ∷ 0xd2 ∷ 0x19 ∷ 0xb8 ∷ 0xa0 ∷ 0x8d ∷ 0xed ∷ 0x1a
        ∷ 0xa8 ∷ 0x36 ∷ 0xef ∷ 0xcc ∷ 0x8b ∷ 0x77 ∷ 0x0d ∷ 0xc7 ∷ [] }
    ensures second_block { let seed = replicate 31 0 ++ 1 ∷ [] in
        (fresh_bytes (record (of_seed seed) { word_pos = 16 })).0
        ≡ 0x3a ∷ 0xeb ∷ 0x52 ∷ 0x24 ∷ 0xec ∷ 0xf8 ∷ 0x49 ∷ 0x92 ∷ 0x9b ∷ 0x9d ∷ 0x82 ∷ 0x8d
        ∷ 0xb1 ∷ 0xce ∷ 0xd4 ∷ 0xdd ∷ 0x83 ∷ 0x20 ∷ 0x25 ∷ 0xe8 ∷ 0x01 ∷ 0x8b ∷ 0x81 ∷ 0x60
        ∷ 0xb8 ∷ 0x22 ∷ 0x84 ∷ 0xf3 ∷ 0xc9 ∷ 0x49 ∷ 0xaa ∷ 0x5a ∷ [] }
{}

/// Each draw goes 8 words on in the key stream, which begins anew after 2^68 words.
pub fn a_draw_goes_eight_words_on()
    ensures { (generator : ChaCha) → (fresh_bytes generator).1
        ≡ record generator { word_pos = (generator.word_pos + 8) % 2 ^ 68 } }
{}
