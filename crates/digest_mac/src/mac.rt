//! Keyed digests: HMAC (RFC 2104).

ghost use Rattle.std.specs.Prelude.{◌≡◌, ◌≤◌, ◌++◌, length, map, bit_xor};
ghost use Rattle.digest_mac.specs.Digests.{keyed_digest, short_key};
ghost use Rattle.digest_mac.specs.Internal.KeyBlocks.{with_zeros};

use crate::chosen::{digest_of, digest_of_pieces};
use crate::hash::Hash;
use crate::values::Digest;

/// The byte that the key is combined with before the text (RFC 2104, 2: ipad).
const INNER_PAD: u8 = 0x36;

/// The byte that the key is combined with before the digest of the text (RFC 2104, 2: opad).
const OUTER_PAD: u8 = 0x5c;

/// The keyed digest (HMAC, RFC 2104, 2) of the text `first` and `second`, one after the other. A key
/// longer than a block is hashed first. It takes no memory.
#[tactic(auto, using(crate::proofs::Padding::block_facts))]
pub fn hmac(hash: Hash, key: &[u8], first: &[u8], second: &[u8]) -> Digest
    ensures { result ≡ keyed_digest hash key.now (first.now ++ second.now) }
{
    let block = key_block(hash, key);
    let inner = combined_with(INNER_PAD, &block);
    let outer = combined_with(OUTER_PAD, &block);
    let size = hash.block_size();
    let digest = digest_of_pieces(hash, &inner[..size], first, second);
    digest_of_pieces(hash, &outer[..size], digest.as_slice(), &[])
}

/// The key, or its digest where it is longer than a block, with zeros after it.
#[tactic(auto, using(crate::proofs::Padding::block_facts))]
fn key_block(hash: Hash, key: &[u8]) -> [u8; 128]
    ensures { result ≡ with_zeros (short_key hash key.now) }
{
    if key.len() <= hash.block_size() {
        zeros_after(key)
    } else {
        let digest = digest_of(hash, key);
        zeros_after(digest.as_slice())
    }
}

/// The key with zeros after it.
fn zeros_after(key: &[u8]) -> [u8; 128]
    requires { length key.now ≤ 128 }
    ensures { result ≡ with_zeros key.now }
{
    let mut block = [0; 128];
    block[..key.len()].copy_from_slice(key);
    block
}

/// Each byte of the block combined with `pad` by exclusive or.
fn combined_with(pad: u8, block: &[u8; 128]) -> [u8; 128]
    ensures { result ≡ map (bit_xor pad) block.now }
{
    let mut combined = [0; 128];
    for place in 0..128 {
        combined[place] = pad ^ block[place];
    }
    combined
}
