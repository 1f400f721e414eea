//! Key tables: keys as hexadecimal digits.

ghost use Rattle.std.specs.Prelude.{◌≡◌, ◌↔◌, List, ℕ, IfOk, IfSome, IsErrOf, IsNone, IsTrue};
ghost use Rattle.hex.specs.Hex.{encode_lower};
ghost use Rattle.key_device.specs.declared.table.KeyEntry.{KeyEntry as AnyEntry};
ghost use Rattle.vc_session.specs.HexDigits.{AreDigits};
ghost use Rattle.vc_session.specs.Requests.{IsKeyEntry, IsKeyTable};

use hex::FromHex;
use json_tree::{Member, Tree};
use key_device::{KeyEntry, KeyName, KeyTable};
use ld_rdf::FlatFault;
use nquads::{Sequence, Text};
use std::alloc::Global;

/// The key with these 70 lower-case hexadecimal digits. It takes no memory.
#[tactic(auto, using(crate::proofs::DigitReadings::readings))]
fn key_of(digits: &str) -> Option<KeyName>
    ensures some { IfSome result (λ key. AreDigits 35 digits.now key.bytes) }
    ensures none { IsNone result → (bytes : List ℕ) → AreDigits 35 digits.now bytes → ⊥ }
{
    match <[u8; 35] as FromHex>::from_hex(digits) {
        Ok(bytes) => {
            // `from_hex` takes upper-case digits too: only what the bytes are written as is the key.
            if is_written(&bytes, digits) {
                Some(KeyName { bytes })
            } else {
                None
            }
        }
        Err(_) => None,
    }
}

/// Whether the digits are those that the bytes are written with.
fn is_written(bytes: &[u8; 35], digits: &str) -> bool
    ensures { IsTrue result ↔ (digits.now ≡ encode_lower bytes.now) }
{
    let mut written = [0u8; 70];
    match hex::encode_to_slice(bytes, &mut written) {
        Ok(()) => written.as_slice() == digits.as_bytes(),
        Err(_) => false,
    }
}

/// The entry of a member of the key table: the method is its name, and the key stands as digits.
///
/// # Errors
///
/// `NotBuilt` exactly where the member is no such entry.
#[tactic(auto, using(crate::proofs::Tables::entries))]
fn entry_of(alloc: Global, member: &Member) -> Result<KeyEntry, FlatFault>
    ensures ok { IfOk result (λ e. IsKeyEntry member.now e) }
    ensures not_built { IsErrOf result FlatFault.NotBuilt
        → (e : AnyEntry) → IsKeyEntry member.now e → ⊥ }
{
    let Some(digits) = member.value.as_text() else {
        return Err(FlatFault::NotBuilt);
    };
    let Some(key) = key_of(digits.as_str()) else {
        return Err(FlatFault::NotBuilt);
    };
    let method = Text::from_str(alloc, member.key.as_str())?;
    Ok(KeyEntry { method, key })
}

/// The key table that the members of an object are.
///
/// # Errors
///
/// `NotBuilt` exactly where the value is no key table.
#[tactic(auto, using(crate::proofs::Tables::turns))]
pub(crate) fn key_table(alloc: Global, keys: &Tree) -> Result<KeyTable, FlatFault>
    ensures ok { IfOk result (λ table. IsKeyTable keys.now table.entries) }
    ensures not_built { IsErrOf result FlatFault.NotBuilt
        → (table : List AnyEntry) → IsKeyTable keys.now table → ⊥ }
{
    let Some(members) = keys.as_object() else {
        return Err(FlatFault::NotBuilt);
    };
    let mut entries = Vec::new(alloc);
    for member in members {
        match entry_of(alloc, member) {
            Ok(entry) => entries.push(entry)?,
            Err(fault) => return Err(fault),
        }
    }
    Ok(KeyTable {
        entries: Sequence::from_vec(entries),
    })
}
