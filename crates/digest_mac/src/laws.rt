//! Laws of the definitions, each proved of a function that does nothing.

ghost use Rattle.std.specs.Prelude.{◌≡◌, ◌+◌, ◌*◌, ◌/◌, ◌<◌, ◌≤◌, ◌++◌, ◌∷◌, ℕ, List, [], codes, length, replicate};
ghost use Rattle.base64.specs.GeneralPurpose.{IsBytes};
ghost use Rattle.digest_mac.specs.Digests.{block_size, digest, digest_size, digits, keyed_digest};
ghost use Rattle.digest_mac.specs.Labels.{hmac_label, multibase_text};
ghost use Rattle.digest_mac.specs.declared.hash.Hash.{Hash};
ghost use Rattle.digest_mac.specs.declared.hash.Hash.TheVariants.{Sha256, Sha384};

/// A digest has as many bytes as its hash says, and twice as many digits.
pub fn a_digest_has_its_size()
    ensures bytes { (hash : Hash) (text : List ℕ) → length (digest hash text) ≡ digest_size hash }
    ensures digits { (hash : Hash) (text : List ℕ)
        → length (digits hash text) ≡ 2 * digest_size hash }
{}

/// A key and the same key with zeros after it, of at most a block, give one keyed digest. RFC 2104, 2.
pub fn zeros_after_a_key_change_nothing()
    ensures { (hash : Hash) (key text : List ℕ) (count : ℕ) → length key + count ≤ block_size hash
        → keyed_digest hash (key ++ replicate count 0) text ≡ keyed_digest hash key text }
{}

/// A key longer than a block is as its digest. RFC 2104, 3.
pub fn a_longer_key_is_as_its_digest()
    ensures { (hash : Hash) (key text : List ℕ) → block_size hash < length key
        → keyed_digest hash key text ≡ keyed_digest hash (digest hash key) text }
{}

/// The examples of RFC 4648, section 10, in base64url without padding behind the letter `u`, and one
/// with the two symbols in which base64url differs.
pub fn labels_of_known_bytes()
    ensures empty { multibase_text [] ≡ codes "u" }
    ensures one { multibase_text (codes "f") ≡ codes "uZg" }
    ensures two { multibase_text (codes "fo") ≡ codes "uZm8" }
    ensures three { multibase_text (codes "foo") ≡ codes "uZm9v" }
    ensures four { multibase_text (codes "foob") ≡ codes "uZm9vYg" }
    ensures five { multibase_text (codes "fooba") ≡ codes "uZm9vYmE" }
    ensures six { multibase_text (codes "foobar") ≡ codes "uZm9vYmFy" }
    ensures other_symbols { multibase_text (0x3e ∷ 0x3f ∷ 0xfe ∷ 0xff ∷ []) ≡ codes "uPj_-_w" }
{}

/// A label is longer than its digest by a third and the letter: 44 characters by SHA-256 and 65 by
/// SHA-384.
pub fn a_label_has_its_length()
    ensures bytes { (bytes : List ℕ)
        → length (multibase_text bytes) ≡ 1 + (4 * length bytes + 2) / 3 }
    ensures sha256 { (key text : List ℕ)
        → length (multibase_text (keyed_digest Sha256 key text)) ≡ 44 }
    ensures sha384 { (key text : List ℕ)
        → length (multibase_text (keyed_digest Sha384 key text)) ≡ 65 }
{}

/// A digest is bytes, and so is a keyed one.
pub fn a_digest_is_bytes()
    ensures plain { (hash : Hash) (text : List ℕ) → IsBytes (digest hash text) }
    ensures keyed { (hash : Hash) (key text : List ℕ) → IsBytes (keyed_digest hash key text) }
{}

/// Different bytes have different labels.
pub fn different_bytes_have_different_labels()
    ensures { (one other : List ℕ) → IsBytes one → IsBytes other
        → multibase_text one ≡ multibase_text other → one ≡ other }
{}

/// Labels of canonical numbers under a key, as another implementation gives them.
pub fn labels_of_known_numbers()
    ensures sha256 { hmac_label Sha256 (codes "0123456789abcdef0123456789abcdef") 0
        ≡ codes "ucRt1fM5B2cAl-M9hZZZzYddcGFUxPO-tu8yOwNPCCTk" }
    ensures sha384 { hmac_label Sha384 (codes "0123456789abcdef0123456789abcdef") 10
        ≡ codes "uVvKa_Xg8kh2ETrixafH7lwRZoYkrBAwQPFywVPm0N7Fo4MSeOv0FCycXsDDbbTFD" }
{}
