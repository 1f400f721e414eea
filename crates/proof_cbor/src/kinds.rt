//! An item as what it is.

ghost use Rattle.std.specs.Prelude.{◌≡◌};
ghost use Rattle.std.specs.Option.{option_map, option_copied};
ghost use Rattle.cbor_core.specs.declared.item.Item.{out-Item};
ghost use Rattle.proof_cbor.specs.Internal.Reading.{blob_level, text_level, whole_level, list_level, map_level};

use cbor_core::{Item, Pair};

/// The content of a byte string.
#[tactic(auto, using(crate::proofs::Levels::levels))]
pub fn blob_in(item: &Item) -> Option<&[u8]>
    ensures { option_map (λ x. x.now) result ≡ blob_level (out-Item item.now) }
{
    match item {
        Item::Blob(content) => Some(content.as_slice()),
        Item::Whole(_) | Item::Text(_) | Item::List(_) | Item::Map(_) => None,
    }
}

/// A text.
#[tactic(auto, using(crate::proofs::Levels::levels))]
pub fn text_in(item: &Item) -> Option<&str>
    ensures { option_map (λ x. x.now) result ≡ text_level (out-Item item.now) }
{
    match item {
        Item::Text(content) => Some(content.as_str()),
        Item::Whole(_) | Item::Blob(_) | Item::List(_) | Item::Map(_) => None,
    }
}

/// A whole number.
#[tactic(auto, using(crate::proofs::Levels::levels))]
pub fn whole_in(item: &Item) -> Option<u64>
    ensures { result ≡ whole_level (out-Item item.now) }
{
    match item {
        Item::Whole(value) => Some(*value),
        Item::Blob(_) | Item::Text(_) | Item::List(_) | Item::Map(_) => None,
    }
}

/// The items of a list.
#[tactic(auto, using(crate::proofs::Levels::levels))]
pub fn list_in(item: &Item) -> Option<&[Item]>
    ensures { option_map (λ x. x.now) result ≡ list_level (out-Item item.now) }
{
    match item {
        Item::List(items) => Some(items.as_slice()),
        Item::Whole(_) | Item::Blob(_) | Item::Text(_) | Item::Map(_) => None,
    }
}

/// The pairs of a map.
#[tactic(auto, using(crate::proofs::Levels::levels))]
pub fn map_in(item: &Item) -> Option<&[Pair]>
    ensures { option_map (λ x. x.now) result ≡ map_level (out-Item item.now) }
{
    match item {
        Item::Map(pairs) => Some(pairs.as_slice()),
        Item::Whole(_) | Item::Blob(_) | Item::Text(_) | Item::List(_) => None,
    }
}
