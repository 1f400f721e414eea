//! What the laws of a key device give a caller, over any device and over a new ledger.

ghost use Rattle.std.specs.Prelude.{◌≡◌, ◌≢◌, ◌≤◌, true, false, List, [], ◌∷◌, ◌++◌, Some, Contains, IfOk, IfSome, OnOk, IsErrOf};
ghost use Rattle.key_device.specs.declared.device.DeviceError.TheVariants.{Failed, NoKey};
ghost use Rattle.key_device.specs.declared.device.SignedEntry.{SignedEntry};
ghost use Rattle.key_device.specs.declared.keys.Signature.{Signature};
ghost use Rattle.key_device.specs.Devices.{GrewBy, CountsFault, MeansItsLog, StillAccepts, StillOwns, log_entry};

use crate::device::{DeviceError, KeyDevice};
use crate::keys::{KeyName, Signature};
use crate::ledger::LedgerDevice;
use std::alloc::Global;

/// Signs `bytes` under `key`, and checks the signature: the answer is yes, and the log has grown by
/// that signature, unless a fault was counted or the device does not own the key.
pub fn sign_and_check<D: KeyDevice>(
    device: &mut D,
    key: &KeyName,
    bytes: &[u8],
) -> Result<bool, DeviceError>
    ensures yes { IfOk result (λ yes. yes ≡ true) }
    ensures logged { OnOk result ((s : Signature)
        × ((D.means device.new).accepts key.now bytes.now s ≡ true)
        × GrewBy (log_entry key.now bytes.now s) (D.means device.old) (D.means device.new)) }
    ensures no_key { IsErrOf result NoKey → (D.means device.old).owns key.now ≡ false }
    ensures failed { IsErrOf result Failed → CountsFault (D.means device.old) (D.means device.new) }
    ensures counted { (D.means device.old).faults ≤ (D.means device.new).faults }
{
    let signature = device.sign(key, bytes)?;
    device.check(key, bytes, &signature)
}

/// Signs `bytes` under `key`. The log of an exact device has then grown by this signature alone,
/// and the device accepts exactly what stands in it.
pub fn sign_for_log<D: KeyDevice>(
    device: &mut D,
    key: &KeyName,
    bytes: &[u8],
) -> Result<Signature, DeviceError>
    ensures grew { (D.means device.old).exact ≡ true
        → IfOk result (λ s. (entries : List SignedEntry)
        × ((D.means device.old).log ≡ Some entries)
        × ((D.means device.new).log ≡ Some (entries ++ log_entry key.now bytes.now s ∷ []))) }
    ensures means { (D.means device.old).exact ≡ true → MeansItsLog (D.means device.new) }
    ensures no_key { IsErrOf result NoKey → (D.means device.old).owns key.now ≡ false }
    ensures failed { IsErrOf result Failed → CountsFault (D.means device.old) (D.means device.new) }
    ensures counted { (D.means device.old).faults ≤ (D.means device.new).faults }
{
    device.sign(key, bytes)
}

/// Signs `bytes` under a fresh key, which the device owns, so `NoKey` never comes. No entry that
/// the log of an exact device had before is under that key.
pub fn sign_with_fresh_key<D: KeyDevice>(
    device: &mut D,
    bytes: &[u8],
) -> Result<(KeyName, Signature), DeviceError>
    ensures no_key { IsErrOf result NoKey → ⊥ }
    ensures logged { IfOk result (λ made.
        GrewBy (log_entry made.0 bytes.now made.1) (D.means device.old) (D.means device.new)) }
    ensures unused { (D.means device.old).exact ≡ true
        → IfOk result (λ made. IfSome (D.means device.old).log (λ entries.
        (e : SignedEntry) → Contains entries e → e.key ≢ made.0)) }
    ensures failed { IsErrOf result Failed → CountsFault (D.means device.old) (D.means device.new) }
    ensures counted { (D.means device.old).faults ≤ (D.means device.new).faults }
{
    let key = device.fresh_key()?;
    let signature = device.sign(&key, bytes)?;
    Ok((key, signature))
}

/// Signs `bytes` under `key`, then makes a secret and a fresh key and signs `others` under both
/// keys, and checks the first signature last: it is still accepted, since no call withdraws
/// acceptance, and `key` is still owned, since no call withdraws ownership. The log has grown by
/// the three signatures alone, and an exact device is still exact.
pub fn sign_among_others<D: KeyDevice>(
    device: &mut D,
    key: &KeyName,
    bytes: &[u8],
    others: &[u8],
) -> Result<bool, DeviceError>
    ensures yes { IfOk result (λ yes. yes ≡ true) }
    ensures no_key { IsErrOf result NoKey → (D.means device.old).owns key.now ≡ false }
    ensures acceptance { StillAccepts (D.means device.old) (D.means device.new) }
    ensures ownership { StillOwns (D.means device.old) (D.means device.new) }
    ensures exact { (D.means device.old).exact ≡ true → MeansItsLog (D.means device.new) }
    ensures grew { OnOk result (IfSome (D.means device.old).log (λ entries.
        (a : SignedEntry) × (b : SignedEntry) × (c : SignedEntry)
        × ((D.means device.new).log ≡ Some (entries ++ a ∷ b ∷ c ∷ [])))) }
    ensures failed { IsErrOf result Failed → CountsFault (D.means device.old) (D.means device.new) }
    ensures counted { (D.means device.old).faults ≤ (D.means device.new).faults }
{
    let signature = device.sign(key, bytes)?;
    device.fresh_secret()?;
    let fresh = device.fresh_key()?;
    device.sign(&fresh, others)?;
    device.sign(key, others)?;
    device.check(key, bytes, &signature)
}

/// Makes a ledger that owns `keys`, and signs `bytes` under `key`: where memory is found, `NoKey`
/// comes exactly where `key` is none of them.
pub fn sign_with_new_ledger(
    alloc: Global,
    keys: &[KeyName],
    key: &KeyName,
    bytes: &[u8],
) -> Result<Signature, DeviceError>
    ensures owned { OnOk result (Contains keys.now key.now) }
    ensures no_key { IsErrOf result NoKey → Contains keys.now key.now → ⊥ }
    ensures failed { IsErrOf result Failed → ⊥ }
{
    let mut ledger = LedgerDevice::new(alloc, keys)?;
    ledger.sign(key, bytes)
}
