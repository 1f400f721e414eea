//! The labels of the blank nodes of a dataset under a key.

ghost use Rattle.std.specs.Prelude.{◌≡◌, ℕ, length, IfOk, Err};
ghost use Rattle.digest_mac.specs.Labels.{hmac_label};
ghost use Rattle.hmac_labels.specs.Clashes.{IsLeastClash};
ghost use Rattle.hmac_labels.specs.Labels.{AreHmacLabels, AreOneToOne};
ghost use Rattle.hmac_labels.specs.Internal.Labelling.{Labelled};
ghost use Rattle.hmac_labels.specs.Internal.Relabelling.{relabelled};
ghost use Rattle.hmac_labels.specs.declared.fault.LabelFault.TheVariants as fault;

use crate::clash::least_clash;
use crate::digests::{digests_below, texts_of};
use crate::fault::LabelFault;
use base_types::{Memory, Sequence, Text};
use digest_mac::{Digest, Hash};
use nquads::Labels;
use rdfc_canon::Canon;
use std::alloc::Global;

/// The labels of blank nodes under a key, and the digests of which they are made.
#[derive(Debug, Drop)]
pub struct HmacLabels {
    /// The label of each blank node, by its number in the store, in the order of the canonical
    /// numbers.
    pub labels: Labels,
    /// The digest for each canonical number.
    pub digests: Sequence<Digest>,
}

/// Labels the blank nodes that have canonical labels under a key (Data Integrity ECDSA Cryptosuites
/// 1.0, createHmacIdLabelMapFunction). A blank node's canonical number is its place among them.
///
/// # Errors
///
/// - `Clash`: two canonical numbers have one label; the least such pair.
/// - `Memory`: there is no memory for it.
pub fn labels(
    alloc: Global,
    canon: &Canon,
    hash: Hash,
    key: &[u8; 32],
) -> Result<HmacLabels, LabelFault>
    // Each blank node has the label of its canonical number, and the digests stand by these numbers.
    ensures labels { IfOk result (λ h. AreHmacLabels hash key.now canon.now.labels h) }
    // No two blank nodes have one label, and no two numbers one digest.
    ensures one_to_one { IfOk result (λ h. AreOneToOne h) }
    // A clash is that of the least pair.
    ensures clash { (first second : ℕ) → result ≡ Err (fault.Clash first second)
        → IsLeastClash (hmac_label hash key.now) (length canon.now.labels) first second }
{
    labels_of(alloc, &canon.labels, hash, key)
}

/// The same, of canonical labels alone.
fn labels_of(
    alloc: Global,
    canonical: &Labels,
    hash: Hash,
    key: &[u8; 32],
) -> Result<HmacLabels, LabelFault>
    ensures { Labelled hash key.now canonical.now result }
{
    let digests = digests_below(alloc, hash, key.as_slice(), canonical.len())?;
    let texts = texts_of(alloc, digests.as_slice())?;
    if let Some((first, second)) = least_clash(alloc, &texts)? {
        return Err(LabelFault::Clash(first, second));
    }
    let labels = with_texts(alloc, canonical, &texts)?;
    Ok(HmacLabels { labels, digests })
}

/// The labels of the same blank nodes with these texts, in order.
fn with_texts(alloc: Global, labels: &Labels, texts: &[Text]) -> Result<Labels, Memory>
    requires { length texts.now ≡ length labels.now }
    ensures { IfOk result (λ ls. ls ≡ relabelled labels.now texts.now) }
{
    let mut given = Labels::new(alloc);
    for place in 0..labels.len() {
        let Some((blank, _)) = labels.at(place) else {
            unreachable!()
        };
        given.push(blank, texts[place].clone()?)?;
    }
    Ok(given)
}
