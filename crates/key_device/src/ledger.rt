//! The exact device: it accepts just what it signed, and numbers its signatures, keys and secrets.

ghost use Rattle.std.specs.Prelude.{◌≡◌, ◌+◌, ℕ, [], ◌∷◌, ◌++◌, ◌||◌, length, true, false, Ok, Err, IfOk, OnOk, OnErr, IsErrOf};
ghost use Rattle.std.specs.Str.{bytes_eq};
ghost use Rattle.base_types.specs.Counts.{one_more};
ghost use Rattle.key_device.specs.declared.device.DeviceError.TheVariants as error;
ghost use Rattle.key_device.specs.declared.keys.KeyName.{KeyName};
ghost use Rattle.key_device.specs.Devices.{StillAccepts, StillOwns, MeansSame, log_entry};
ghost use Rattle.key_device.specs.Ledgers.{has_key, has_entry, has_keys_of, ledger_meaning, numbered_signature, numbered_key, numbered_secret, is_entry, IsNumbered, IsNextFree};
ghost use Rattle.key_device.specs.Internal.Numbers.{signature_number};

use crate::device::{DeviceError, KeyDevice, SignedEntry};
use crate::keys::{KeyName, Signature};
use base_types::{Memory, Sequence};
use std::alloc::Global;
use std::collections::BTreeSet;
use std::marker::Model;

/// The exact device: it accepts just what it signed, and never fails. Its signatures, fresh keys
/// and secrets are numbered, so they can be told beforehand and keep nothing secret.
#[derive(Drop)]
pub struct LedgerDevice {
    alloc: Global,
    keys: BTreeSet<KeyName>,
    log: Vec<SignedEntry>,
    secrets: u64,
}

impl Model for LedgerDevice {
    ghost use Rattle.key_device.specs.Ledgers.{Ledger, IsKept};

    ghost Value = { Ledger };

    ghost view = { λ d. record { keys = d.keys.keys; log = d.log.items; secrets = d.secrets } };

    ghost invariant = { λ d. IsKept d.keys.keys d.log.items };
}

impl LedgerDevice {
    /// A ledger that owns exactly these keys, signed nothing and gave no secret.
    pub fn new(alloc: Global, keys: &[KeyName]) -> Result<LedgerDevice, Memory>
        ensures keys { IfOk result (λ d.
            (key : KeyName) → has_key d.keys key ≡ has_key keys.now key) }
        ensures log { IfOk result (λ d. d.log ≡ []) }
        ensures secrets { IfOk result (λ d. d.secrets ≡ 0) }
        ensures exact { IfOk result (λ d. (ledger_meaning d).exact ≡ true) }
    {
        let mut owned = BTreeSet::new(alloc);
        for name in keys {
            add_key(&mut owned, *name)?;
        }
        Ok(LedgerDevice {
            alloc,
            keys: owned,
            log: Vec::new(alloc),
            secrets: 0,
        })
    }

    /// What it signed, in order.
    pub fn log(&self) -> &[SignedEntry]
        ensures { result.now ≡ self.now.log }
    {
        self.log.as_slice()
    }
}

/// The signature with this number.
#[tactic(auto, unfolding(crate::specs::Ledgers::numbered_signature))]
fn numbered_signature(number: u64) -> Signature
    ensures { result ≡ numbered_signature number }
{
    let mut bytes = [0; 64];
    bytes[56..].copy_from_slice(&number.to_be_bytes());
    Signature { bytes }
}

/// The key with this number.
#[tactic(auto, unfolding(crate::specs::Ledgers::numbered_key))]
fn numbered_key(number: u64) -> KeyName
    ensures { result ≡ numbered_key number }
{
    let mut bytes = [0; 35];
    bytes[1] = 1;
    bytes[27..].copy_from_slice(&number.to_be_bytes());
    KeyName { bytes }
}

/// The secret with this number.
#[tactic(auto, unfolding(crate::specs::Ledgers::numbered_secret))]
fn numbered_secret(number: u64) -> [u8; 32]
    ensures { result ≡ numbered_secret number }
{
    let mut bytes = [0; 32];
    bytes[24..].copy_from_slice(&number.to_be_bytes());
    bytes
}

/// Whether `key` is one of these.
fn has_key(owned: &BTreeSet<KeyName>, key: &KeyName) -> bool
    ensures { result ≡ has_key owned.now.keys key.now }
{
    owned.contains(key)
}

/// Adds `key`, if it is not there.
fn add_key(owned: &mut BTreeSet<KeyName>, key: KeyName) -> Result<(), Memory>
    ensures ok { OnOk result ((other : _)
        → has_key owned.new.keys other
        ≡ (bytes_eq other.bytes key.bytes || has_key owned.old.keys other)) }
    ensures err { OnErr result (owned.new.keys ≡ owned.old.keys) }
{
    drop(owned.insert(key)?);
    Ok(())
}

/// The number that a numbered signature ends with.
#[tactic(auto, unfolding(crate::specs::Internal::Numbers::signature_number))]
fn signature_number(signature: &Signature) -> u64
    ensures { result ≡ signature_number signature.now }
{
    let mut number = [0; 8];
    number.copy_from_slice(&signature.bytes[56..]);
    u64::from_be_bytes(number)
}

/// Whether this key, these bytes and this signature stand together in an entry. Only the entry with
/// the number of the signature can be the one, so no other is looked at.
fn is_recorded(entries: &[SignedEntry], key: &KeyName, bytes: &[u8], signature: &Signature) -> bool
    requires { IsNumbered entries.now }
    ensures { result ≡ has_entry entries.now key.now bytes.now signature.now }
{
    let count = entries.len() as u64;
    let number = signature_number(signature);
    if number == 0 || number > count {
        return false;
    }
    is_entry(&entries[number as usize - 1], key, bytes, signature)
}

/// Whether `entry` is this key, these bytes and this signature.
fn is_entry(entry: &SignedEntry, key: &KeyName, bytes: &[u8], signature: &Signature) -> bool
    ensures { result ≡ is_entry key.now bytes.now signature.now entry.now }
{
    *key == entry.key && bytes == entry.bytes.as_slice() && *signature == entry.signature
}

/// The key with the least number from 1 that is not owned. Of the numbers from 1 to one more than
/// the count of owned keys one is free.
fn next_free(owned: &BTreeSet<KeyName>) -> KeyName
    ensures { (n : ℕ) × IsNextFree (has_key owned.now.keys) n × (result ≡ numbered_key n) }
{
    for number in 1..owned.len() as u64 + 2 {
        let key = numbered_key(number);
        if !has_key(owned, &key) {
            return key;
        }
    }
    unreachable!()
}

impl KeyDevice for LedgerDevice {
    ghost use Rattle.base_types.specs.Counts.{one_more};
    ghost use Rattle.key_device.specs.Ledgers.{ledger_meaning, numbered_secret};
    ghost use Rattle.key_device.specs.Exact.{ledger_means_its_log};

    ghost means = { ledger_meaning };

    ghost exact_means = { ledger_means_its_log };

    #[tactic(auto, using(crate::proofs::Recording::recording))]
    fn sign(&mut self, key: &KeyName, bytes: &[u8]) -> Result<Signature, DeviceError>
        ensures signature { IfOk result (λ s. s ≡ numbered_signature (length self.old.log + 1)) }
        ensures signs { IfOk result (λ s. self.new ≡ record self.old {
          log = self.old.log ++ log_entry key.now bytes.now s ∷ [];
        }) }
        ensures not_owned { has_key self.old.keys key.now ≡ false → result ≡ Err error.NoKey }
        ensures no_key { IsErrOf result error.NoKey → has_key self.old.keys key.now ≡ false }
        ensures never_fails { IsErrOf result error.Failed → ⊥ }
        ensures unchanged { OnErr result (self.new ≡ self.old) }
        ensures accepted { IfOk result (λ s. has_entry self.new.log key.now bytes.now s ≡ true) }
        ensures acceptance { StillAccepts (ledger_meaning self.old) (ledger_meaning self.new) }
        ensures exactness { (ledger_meaning self.new).exact ≡ (ledger_meaning self.old).exact }
    {
        if !has_key(&self.keys, key) {
            return Err(DeviceError::NoKey);
        }
        let signature = numbered_signature(self.log.len() as u64 + 1);
        let bytes = Sequence::from_vec(bytes.to_vec(self.alloc)?);
        self.log.push(SignedEntry {
            key: *key,
            bytes,
            signature,
        })?;
        Ok(signature)
    }

    fn check(
        &mut self,
        key: &KeyName,
        bytes: &[u8],
        signature: &Signature,
    ) -> Result<bool, DeviceError>
        ensures says { result ≡ Ok (has_entry self.old.log key.now bytes.now signature.now) }
        ensures unchanged { self.new ≡ self.old }
    {
        Ok(is_recorded(&self.log, key, bytes, signature))
    }

    #[tactic(auto, using(crate::proofs::Recording::recording))]
    fn fresh_key(&mut self) -> Result<KeyName, DeviceError>
        ensures least { IfOk result (λ key.
            (n : ℕ) × IsNextFree (has_key self.old.keys) n × (key ≡ numbered_key n)) }
        ensures new { IfOk result (λ key. has_key self.old.keys key ≡ false) }
        ensures owned { IfOk result (λ key. has_key self.new.keys key ≡ true) }
        ensures adds { IfOk result (λ key. (other : KeyName)
            → has_key self.new.keys other
            ≡ (bytes_eq other.bytes key.bytes || has_key self.old.keys other)) }
        ensures log_stays { (self.new.log ≡ self.old.log) × (self.new.secrets ≡ self.old.secrets) }
        ensures not_refused { OnErr result (result ≡ Err error.Memory) }
        ensures unchanged { OnErr result (self.new ≡ self.old) }
        ensures ownership { StillOwns (ledger_meaning self.old) (ledger_meaning self.new) }
        ensures exactness { (ledger_meaning self.new).exact ≡ (ledger_meaning self.old).exact }
    {
        let key = next_free(&self.keys);
        add_key(&mut self.keys, key)?;
        Ok(key)
    }

    fn fresh_secret(&mut self) -> Result<[u8; 32], DeviceError>
        ensures secret { result ≡ Ok (numbered_secret (one_more self.old.secrets)) }
        ensures counts { self.new ≡ record self.old { secrets = one_more self.old.secrets } }
    {
        self.secrets = self.secrets.saturating_add(1);
        Ok(numbered_secret(self.secrets))
    }
}
