//! Reading one item (RFC 8949, 3).

ghost use Rattle.std.specs.Prelude.{◌≡◌, ◌≢◌, ◌≤◌, ◌<◌, ℕ, [], ◌∷◌, ◌++◌, true, length, take, IfOk, OnOk, Result, Ok, Err};
ghost use Rattle.std.specs.Ordering.{nat_cmp};
ghost use Rattle.std.specs.BTreeMap.{insert_entry};
ghost use Rattle.cbor_core.specs.declared.item.Item.{Item};
ghost use Rattle.cbor_core.specs.declared.fault.CborFault.{CborFault};
ghost use Rattle.cbor_core.specs.declared.fault.CborFault.TheVariants.{Trailing, Memory};
ghost use Rattle.cbor_core.specs.Grammar.{pairs_of, Encodes};
ghost use Rattle.cbor_core.specs.Refusals.{UnlessMemory, ReadsAs};
ghost use Rattle.cbor_core.specs.Writing.{item_nesting, count_of, keys_rise};
ghost use Rattle.cbor_core.specs.Internal.Results.{Gives};
ghost use Rattle.cbor_core.specs.Internal.Reading.{is_memory, items_at, entries_at, list_at, map_at, item_at, reading};

use crate::fault::CborFault;
use crate::item::{Item, Pair};
use crate::reading::{place, read_argument, read_blob, read_key, read_text, read_whole};
use base_types::Items;
use std::alloc::Global;
use std::collections::BTreeMap;

/// How deep lists and maps may nest.
const LEVELS: u8 = 4;

/// How many items an input may have, keys of maps counted.
const ITEMS: u32 = 100_000;

/// The item that the bytes begin with, where lists and maps may nest `levels` deep and `left` items
/// may begin; then how many may begin after it, and what follows it.
#[cycle(item)]
#[tactic(auto, using(crate::proofs::ReadingLoops::item_steps), unfolding(crate::specs::Internal::Reading::flat_at))]
fn read_item(
    alloc: Global,
    total: usize,
    levels: u8,
    left: u32,
    bytes: &[u8],
) -> Result<(Item, u32, &[u8]), CborFault>
    ensures { Gives is_memory (λ x. (x.0, x.1, x.2.now)) result
        (item_at total levels left bytes.now) }
{
    let [first, ..] = bytes else {
        return Err(CborFault::Truncated(total as u64));
    };
    if left == 0 {
        return Err(CborFault::TooMany);
    }
    let left = left - 1;
    match *first / 32 {
        0 => read_whole(total, left, bytes),
        2 => read_blob(alloc, total, left, bytes),
        3 => read_text(alloc, total, left, bytes),
        4 if levels > 0 => read_list(alloc, total, levels - 1, left, bytes),
        5 if levels > 0 => read_map(alloc, total, levels - 1, left, bytes),
        _ => Err(CborFault::Forbidden(place(total, bytes))),
    }
}

#[cycle(item)]
#[tactic(auto, unfolding(crate::specs::Internal::Reading::list_at))]
fn read_list(
    alloc: Global,
    total: usize,
    levels: u8,
    left: u32,
    bytes: &[u8],
) -> Result<(Item, u32, &[u8]), CborFault>
    ensures { Gives is_memory (λ x. (x.0, x.1, x.2.now)) result
        (list_at total (item_at total levels) left bytes.now) }
{
    let (count, rest) = read_argument(total, bytes)?;
    let (items, left, rest) = read_items(alloc, total, levels, count, left, rest)?;
    Ok((Item::List(items), left, rest))
}

fn push_item(items: &mut Items<Item>, item: Item) -> Result<(), base_types::Memory>
    ensures { OnOk result (items.new ≡ items.old ++ item ∷ []) }
{
    items.push(item)?;
    Ok(())
}

#[cycle(item)]
#[tactic(auto, using(crate::proofs::ReadingLoops::items_steps))]
fn read_items(
    alloc: Global,
    total: usize,
    levels: u8,
    count: u64,
    left: u32,
    bytes: &[u8],
) -> Result<(Items<Item>, u32, &[u8]), CborFault>
    ensures { Gives is_memory (λ x. (x.0, x.1, x.2.now)) result
        (items_at (item_at total levels) [] count left bytes.now) }
{
    let mut items = Items::new(alloc);
    let mut remaining = left;
    let mut rest = bytes;
    for _ in 0..count {
        let (item, left_after, after) = read_item(alloc, total, levels, remaining, rest)?;
        push_item(&mut items, item)?;
        remaining = left_after;
        rest = after;
    }
    Ok((items, remaining, rest))
}

#[cycle(item)]
#[tactic(auto, unfolding(crate::specs::Internal::Reading::map_at))]
fn read_map(
    alloc: Global,
    total: usize,
    levels: u8,
    left: u32,
    bytes: &[u8],
) -> Result<(Item, u32, &[u8]), CborFault>
    ensures { Gives is_memory (λ x. (x.0, x.1, x.2.now)) result
        (map_at total (item_at total levels) left bytes.now) }
{
    let (count, rest) = read_argument(total, bytes)?;
    let (entries, left, rest) = read_entries(alloc, total, levels, count, left, rest)?;
    Ok((Item::Map(pairs(alloc, entries)?), left, rest))
}

fn put_entry(
    entries: &mut BTreeMap<u64, Item>,
    key: u64,
    value: Item,
) -> Result<(), base_types::Memory>
    ensures { OnOk result
        (entries.new.entries ≡ insert_entry nat_cmp entries.old.entries key value) }
{
    drop(entries.insert(key, value)?);
    Ok(())
}

#[cycle(item)]
#[tactic(auto, using(crate::proofs::ReadingLoops::entries_steps))]
fn read_entries(
    alloc: Global,
    total: usize,
    levels: u8,
    count: u64,
    left: u32,
    bytes: &[u8],
) -> Result<(BTreeMap<u64, Item>, u32, &[u8]), CborFault>
    ensures { Gives is_memory (λ x. (x.0.entries, x.1, x.2.now)) result
        (entries_at total (item_at total levels) [] count left bytes.now) }
{
    let mut entries = BTreeMap::new(alloc);
    let mut remaining = left;
    let mut rest = bytes;
    for _ in 0..count {
        let (key, behind) = read_key(total, remaining, rest)?;
        if entries.contains_key(&key) {
            return Err(CborFault::RepeatedKey(place(total, rest)));
        }
        let (value, left_after, after) = read_item(
            alloc,
            total,
            levels,
            remaining.saturating_sub(1),
            behind,
        )?;
        put_entry(&mut entries, key, value)?;
        remaining = left_after;
        rest = after;
    }
    Ok((entries, remaining, rest))
}

/// The entries of a map as its pairs.
#[tactic(auto, using(crate::proofs::ReadingLoops::pairs_steps))]
fn pairs(alloc: Global, entries: BTreeMap<u64, Item>) -> Result<Items<Pair>, base_types::Memory>
    ensures { IfOk result (λ pairs. pairs ≡ pairs_of entries.entries) }
{
    let mut pairs = Items::new(alloc);
    for (key, value) in entries {
        pairs.push(Pair { key, value })?;
    }
    Ok(pairs)
}

#[tactic(auto, unfolding(crate::specs::Internal::Reading::reading))]
fn read_all(alloc: Global, bytes: &[u8]) -> Result<Item, CborFault>
    ensures { Gives is_memory (λ x. x) result (reading bytes.now) }
{
    let (item, _, rest) = read_item(alloc, bytes.len(), LEVELS, ITEMS, bytes)?;
    if !rest.is_empty() {
        return Err(CborFault::Trailing(place(bytes.len(), rest)));
    }
    Ok(item)
}

/// The item that all of the bytes spell, its maps by rising key. No memory is taken for what a head
/// claims and the input does not hold.
///
/// Each refusal is the first one from left to right, as `CborFault` says.
pub fn decode(alloc: Global, bytes: &[u8]) -> Result<Item, CborFault>
    // What is read is spelled by the bytes, all of them.
    ensures found { IfOk result (λ item. Encodes 4 item (count_of item) bytes.now) }
    // It may be written: its maps have rising keys, and it keeps the limits.
    ensures keys { IfOk result (λ item. keys_rise item ≡ true) }
    ensures nesting { IfOk result (λ item. item_nesting item ≤ 4) }
    ensures count { IfOk result (λ item. count_of item ≤ 100000) }
    // What is spelled within the limits is read.
    ensures only { (item : Item) (count : ℕ) → count ≤ 100000 → Encodes 4 item count bytes.now
        → UnlessMemory Memory (Ok item) result }
    // Where a front of the bytes spells an item, what follows it is refused.
    ensures trailing { (item : Item) (count n : ℕ) → n < length bytes.now → count ≤ 100000
        → Encodes 4 item count (take n bytes.now) → UnlessMemory Memory (Err (Trailing n)) result }
    // The answer is what the bytes are: their item, or the fault with which they are refused.
    ensures reads { result ≢ Err Memory → ReadsAs bytes.now result }
    // There is no other answer.
    ensures exact { (outcome : Result Item CborFault) → ReadsAs bytes.now outcome
        → UnlessMemory Memory outcome result }
{
    read_all(alloc, bytes)
}
