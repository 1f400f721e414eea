//! The heads, strings and keys that bytes begin with.

ghost use Rattle.std.specs.Prelude.{◌≡◌, ◌^◌, IfOk};
ghost use Rattle.std.specs.Int.{w16, w32, w64};
ghost use Rattle.cbor_core.specs.Internal.Results.{Gives};
ghost use Rattle.cbor_core.specs.Internal.Reading.{is_memory, start_of, byte_at, wide_at, argument_at, string_at, whole_at, blob_at, text_string_at, key_at};

use crate::fault::CborFault;
use crate::item::{Bytes, Item};
use base_types::{Memory, Text};
use std::alloc::Global;

/// Where the last bytes of an input of `total` bytes begin.
pub fn place(total: usize, bytes: &[u8]) -> u64
    ensures { result ≡ start_of total bytes.now }
{
    total.saturating_sub(bytes.len()) as u64
}

fn read_byte(total: usize, at: u64, bytes: &[u8]) -> Result<(u64, &[u8]), CborFault>
    ensures { Gives is_memory (λ x. (x.0, x.1.now)) result (byte_at total at bytes.now) }
{
    match bytes {
        [] => Err(CborFault::Truncated(total as u64)),
        [byte, ..] if *byte < 24 => Err(CborFault::NotShortest(at)),
        [byte, rest @ ..] => Ok((*byte as u64, rest)),
    }
}

fn read_two(total: usize, at: u64, bytes: &[u8]) -> Result<(u64, &[u8]), CborFault>
    ensures { Gives is_memory (λ x. (x.0, x.1.now)) result
        (wide_at total at w16 (2 ^ 8) bytes.now) }
{
    if bytes.len() < 2 {
        return Err(CborFault::Truncated(total as u64));
    }
    let (front, rest) = bytes.split_at(2);
    let value = u16::from_be_bytes([front[0], front[1]]);
    if value < 0x100 {
        return Err(CborFault::NotShortest(at));
    }
    Ok((value as u64, rest))
}

fn read_four(total: usize, at: u64, bytes: &[u8]) -> Result<(u64, &[u8]), CborFault>
    ensures { Gives is_memory (λ x. (x.0, x.1.now)) result
        (wide_at total at w32 (2 ^ 16) bytes.now) }
{
    if bytes.len() < 4 {
        return Err(CborFault::Truncated(total as u64));
    }
    let (front, rest) = bytes.split_at(4);
    let value = u32::from_be_bytes([front[0], front[1], front[2], front[3]]);
    if value < 0x1_0000 {
        return Err(CborFault::NotShortest(at));
    }
    Ok((value as u64, rest))
}

fn read_eight(total: usize, at: u64, bytes: &[u8]) -> Result<(u64, &[u8]), CborFault>
    ensures { Gives is_memory (λ x. (x.0, x.1.now)) result
        (wide_at total at w64 (2 ^ 32) bytes.now) }
{
    if bytes.len() < 8 {
        return Err(CborFault::Truncated(total as u64));
    }
    let (front, rest) = bytes.split_at(8);
    let value = u64::from_be_bytes([
        front[0], front[1], front[2], front[3], front[4], front[5], front[6], front[7],
    ]);
    if value < 0x1_0000_0000 {
        return Err(CborFault::NotShortest(at));
    }
    Ok((value, rest))
}

/// The argument of the head that the bytes begin with, and what follows the head.
#[tactic(auto, unfolding(crate::specs::Internal::Reading::argument_at))]
pub fn read_argument(total: usize, bytes: &[u8]) -> Result<(u64, &[u8]), CborFault>
    ensures { Gives is_memory (λ x. (x.0, x.1.now)) result (argument_at total bytes.now) }
{
    let at = place(total, bytes);
    let [first, rest @ ..] = bytes else {
        return Err(CborFault::Truncated(total as u64));
    };
    let code = *first % 32;
    if code < 24 {
        return Ok((code as u64, rest));
    }
    match code {
        24 => read_byte(total, at, rest),
        25 => read_two(total, at, rest),
        26 => read_four(total, at, rest),
        27 => read_eight(total, at, rest),
        _ => Err(CborFault::Forbidden(at)),
    }
}

/// The content of the byte string or text that the bytes begin with, and what follows it.
#[tactic(auto, unfolding(crate::specs::Internal::Reading::string_at))]
fn read_string(total: usize, bytes: &[u8]) -> Result<(&[u8], &[u8]), CborFault>
    ensures { Gives is_memory (λ x. (x.0.now, x.1.now)) result (string_at total bytes.now) }
{
    let (len, rest) = read_argument(total, bytes)?;
    let len = len as usize;
    if rest.len() < len {
        return Err(CborFault::Truncated(total as u64));
    }
    Ok(rest.split_at(len))
}

#[tactic(auto, unfolding(crate::specs::Internal::Reading::whole_at))]
pub fn read_whole(total: usize, left: u32, bytes: &[u8]) -> Result<(Item, u32, &[u8]), CborFault>
    ensures { Gives is_memory (λ x. (x.0, x.1, x.2.now)) result (whole_at total left bytes.now) }
{
    let (value, rest) = read_argument(total, bytes)?;
    Ok((Item::Whole(value), left, rest))
}

fn copy_of(alloc: Global, content: &[u8]) -> Result<Bytes, Memory>
    ensures { IfOk result (λ bytes. bytes ≡ content.now) }
{
    Ok(Bytes::from_vec(Vec::from_slice(alloc, content)?))
}

#[tactic(auto, unfolding(crate::specs::Internal::Reading::blob_at))]
pub fn read_blob(
    alloc: Global,
    total: usize,
    left: u32,
    bytes: &[u8],
) -> Result<(Item, u32, &[u8]), CborFault>
    ensures { Gives is_memory (λ x. (x.0, x.1, x.2.now)) result (blob_at total left bytes.now) }
{
    let (content, rest) = read_string(total, bytes)?;
    Ok((Item::Blob(copy_of(alloc, content)?), left, rest))
}

#[tactic(auto, using(crate::proofs::ReadingLoops::text_steps), unfolding(crate::specs::Internal::Reading::text_string_at))]
pub fn read_text(
    alloc: Global,
    total: usize,
    left: u32,
    bytes: &[u8],
) -> Result<(Item, u32, &[u8]), CborFault>
    ensures { Gives is_memory (λ x. (x.0, x.1, x.2.now)) result
        (text_string_at total left bytes.now) }
{
    let (content, rest) = read_string(total, bytes)?;
    let Ok(text) = str::from_utf8(content) else {
        return Err(CborFault::Forbidden(place(total, bytes)));
    };
    Ok((Item::Text(Text::from_str(alloc, text)?), left, rest))
}

/// The key that the bytes begin with, and what follows it.
#[tactic(auto, unfolding(crate::specs::Internal::Reading::key_at))]
pub fn read_key(total: usize, left: u32, bytes: &[u8]) -> Result<(u64, &[u8]), CborFault>
    ensures { Gives is_memory (λ x. (x.0, x.1.now)) result (key_at total left bytes.now) }
{
    let [first, ..] = bytes else {
        return Err(CborFault::Truncated(total as u64));
    };
    if left == 0 {
        return Err(CborFault::TooMany);
    }
    if *first / 32 != 0 {
        return Err(CborFault::Forbidden(place(total, bytes)));
    }
    read_argument(total, bytes)
}
