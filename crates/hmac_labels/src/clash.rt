//! The least pair of places with one text.

ghost use Rattle.std.specs.Prelude.{◌≡◌, IfOk};
ghost use Rattle.hmac_labels.specs.Internal.Searching.{least_from};

use base_types::{Memory, Text};
use indexmap::IndexMap;
use std::alloc::Global;

/// The least pair of places that hold one text. The places are gone through from the last to the
/// first, so a text that is met again was met at the next place that holds it, and the last pair
/// that is found is the least.
pub fn least_clash(alloc: Global, texts: &[Text]) -> Result<Option<(u64, u64)>, Memory>
    ensures { IfOk result (λ pair. pair ≡ least_from 0 texts.now) }
{
    let mut places = IndexMap::new(alloc);
    let mut least = None;
    let mut rest = texts;
    while let Some((text, earlier)) = rest.split_last() {
        let place = earlier.len() as u64;
        if let Some(later) = places.insert(text.clone()?, place)? {
            least = Some((place, later));
        }
        rest = earlier;
    }
    Ok(least)
}
