//! Writing an item deterministically (RFC 8949, 4.2.1).

ghost use Rattle.std.specs.Prelude.{◌≡◌, ◌≤◌, ◌<◌, ◌&&◌, ◌^◌, ◌++◌, true, length, nat_lt, IfOk, OnOk, Ok};
ghost use Rattle.std.specs.List.{flat_map, list_all};
ghost use Rattle.cbor_core.specs.Grammar.{head_of, Encodes};
ghost use Rattle.cbor_core.specs.Refusals.{ReadsAs};
ghost use Rattle.cbor_core.specs.Writing.{encoding_of, item_nesting, count_of, keys_rise, fits};

use crate::heads::head;
use crate::item::{Item, Pair};
use base_types::Memory;
use std::alloc::Global;

#[tactic(auto, using(crate::proofs::Writes::head_steps))]
fn write_head(out: &mut Vec<u8>, major: u8, value: u64) -> Result<(), Memory>
    requires { major < 8 }
    ensures { OnOk result (out.new.items ≡ out.old.items ++ head_of major value) }
{
    let head = head(major, value);
    out.extend_from_slice(&head.bytes[..head.len as usize])?;
    Ok(())
}

fn write_string(out: &mut Vec<u8>, major: u8, content: &[u8]) -> Result<(), Memory>
    requires { major < 8 }
    ensures written { OnOk result
        (out.new.items ≡ out.old.items ++ (head_of major (length content.now) ++ content.now)) }
    ensures length { length content.now < 2 ^ 64 }
{
    write_head(out, major, content.len() as u64)?;
    out.extend_from_slice(content)?;
    Ok(())
}

#[cycle(writing)]
#[tactic(auto, using(crate::proofs::Writes::item_writes))]
fn write_item(out: &mut Vec<u8>, item: &Item) -> Result<(), Memory>
    ensures written { OnOk result (out.new.items ≡ out.old.items ++ encoding_of item.now) }
    ensures fits { OnOk result (fits item.now ≡ true) }
{
    match item {
        Item::Whole(value) => {
            write_head(out, 0, *value)?;
            Ok(())
        }
        Item::Blob(content) => {
            write_string(out, 2, content.as_slice())?;
            Ok(())
        }
        Item::Text(content) => {
            write_string(out, 3, content.as_str().as_bytes())?;
            Ok(())
        }
        Item::List(items) => {
            write_head(out, 4, items.len() as u64)?;
            write_items(out, items.as_slice())?;
            Ok(())
        }
        Item::Map(pairs) => {
            write_head(out, 5, pairs.len() as u64)?;
            write_pairs(out, pairs.as_slice())?;
            Ok(())
        }
    }
}

#[cycle(writing)]
#[tactic(auto, using(crate::proofs::Writes::item_writes))]
fn write_items(out: &mut Vec<u8>, items: &[Item]) -> Result<(), Memory>
    ensures written { OnOk result
        (out.new.items ≡ out.old.items ++ flat_map encoding_of items.now) }
    ensures fits { OnOk result (list_all fits items.now ≡ true) }
{
    for item in items {
        write_item(out, item)?;
    }
    Ok(())
}

#[cycle(writing)]
#[tactic(auto, using(crate::proofs::Writes::item_writes))]
fn write_pairs(out: &mut Vec<u8>, pairs: &[Pair]) -> Result<(), Memory>
    ensures written { OnOk result (out.new.items
        ≡ out.old.items ++ flat_map (λ p. head_of 0 p.key ++ encoding_of p.value) pairs.now) }
    ensures fits { OnOk result
        (list_all (λ p. nat_lt p.key (2 ^ 64) && fits p.value) pairs.now ≡ true) }
{
    for pair in pairs {
        write_head(out, 0, pair.key)?;
        write_item(out, &pair.value)?;
    }
    Ok(())
}

/// The one spelling of an item whose maps have their pairs by rising key, in which lists and maps nest
/// at most 4 deep and which has at most 100,000 items, keys counted.
pub fn encode(alloc: Global, item: &Item) -> Result<Vec<u8>, Memory>
    requires keys { keys_rise item.now ≡ true }
    requires nesting { item_nesting item.now ≤ 4 }
    requires count { count_of item.now ≤ 100000 }
    // The bytes are the head of each item, in order, with what it holds.
    ensures written { IfOk result (λ bytes. bytes.items ≡ encoding_of item.now) }
    // They spell the item.
    ensures spelled { IfOk result (λ bytes. Encodes 4 item.now (count_of item.now) bytes.items) }
    // What the types of Rust keep holds of it.
    ensures fits { IfOk result (λ _. fits item.now ≡ true) }
    // They read back as the item.
    ensures reads_back { IfOk result (λ bytes. ReadsAs bytes.items (Ok item.now)) }
{
    let mut out = Vec::new(alloc);
    write_item(&mut out, item)?;
    Ok(out)
}
