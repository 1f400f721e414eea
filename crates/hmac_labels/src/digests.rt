//! The digests of canonical numbers and their texts.

ghost use Rattle.std.specs.Prelude.{◌≡◌, map, IfOk};
ghost use Rattle.digest_mac.specs.Labels.{hmac_digest, multibase_text};
ghost use Rattle.rdfc_ndegree.specs.Table.{numbers_below};

use base_types::{Memory, Sequence, Text};
use digest_mac::{Digest, Hash, hmac, label_text};
use std::alloc::Global;

/// The digests for the canonical numbers below `count`, in order.
pub fn digests_below(
    alloc: Global,
    hash: Hash,
    key: &[u8],
    count: usize,
) -> Result<Sequence<Digest>, Memory>
    ensures { IfOk result (λ ds. ds ≡ map (hmac_digest hash key.now) (numbers_below count)) }
{
    let mut digests = Sequence::new(alloc);
    for number in 0..count {
        digests.push(digest_for(alloc, hash, key, number)?)?;
    }
    Ok(digests)
}

/// The digest for a canonical number: of `c14n` and the number.
#[tactic(auto, unfolding(digest_mac::specs::Labels::hmac_digest))]
fn digest_for(alloc: Global, hash: Hash, key: &[u8], number: usize) -> Result<Digest, Memory>
    ensures { IfOk result (λ d. d ≡ hmac_digest hash key.now number) }
{
    let digits = format!(in alloc; "{number}")?;
    Ok(hmac(hash, key, b"c14n", digits.as_bytes()))
}

/// The labels of digests, in order.
pub fn texts_of(alloc: Global, digests: &[Digest]) -> Result<Vec<Text>, Memory>
    ensures { IfOk result (λ ts. ts.items ≡ map multibase_text digests.now) }
{
    let mut texts = Vec::new(alloc);
    for digest in digests {
        texts.push(label_text(alloc, digest.as_slice())?)?;
    }
    Ok(texts)
}
