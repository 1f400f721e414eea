//! The trait of key devices: what signs under secret keys and checks signatures, with its laws.

ghost use Rattle.std.specs.Prelude.{◌≡◌, ◌≤◌, true, false, IfOk, OnOk, OnErr, IsErrOf};
ghost use Rattle.key_device.specs.declared.device.DeviceError.TheVariants.{Failed, NoKey};
ghost use Rattle.key_device.specs.Devices.{DeviceMeaning, CountsFault, MeansSame, AcceptsSame, StillAccepts, OwnsSame, StillOwns, GrewBy, IsSecretTold, MeansItsLog, log_entry};

use crate::keys::{KeyName, Signature};
use base_types::{Memory, Sequence};
use std::alloc::{AllocError, AllocFailed};
use std::fmt;

/// One signature that a device made: the key, the bytes that were signed, and the signature.
#[derive(Debug, Drop)]
pub struct SignedEntry {
    pub key: KeyName,
    pub bytes: Sequence<u8>,
    pub signature: Signature,
}

/// Why a device did not answer.
#[derive(Clone, Copy, Debug, PartialEq, Eq)]
pub enum DeviceError {
    /// The device failed, and counted a fault in this call.
    Failed,
    /// The device does not own the key under which it was to sign.
    NoKey,
    /// Out of memory.
    Memory,
}

impl fmt::Display for DeviceError {
    fn fmt<W: fmt::Write>(&self, f: &mut fmt::Formatter<W>) -> fmt::Result {
        match self {
            DeviceError::Failed => f.write_str("the key device failed"),
            DeviceError::NoKey => f.write_str("the key device does not own the key"),
            DeviceError::Memory => f.write_str("out of memory"),
        }
    }
}

impl From<Memory> for DeviceError {
    ghost use Rattle.key_device.specs.declared.device.DeviceError.TheVariants as error;

    ghost from_gives = { λ _ e. e ≡ error.Memory };

    fn from(_memory: Memory) -> DeviceError {
        DeviceError::Memory
    }
}

impl From<AllocError> for DeviceError {
    ghost use Rattle.key_device.specs.declared.device.DeviceError.TheVariants as error;

    ghost from_gives = { λ _ e. e ≡ error.Memory };

    fn from(_error: AllocError) -> DeviceError {
        DeviceError::Memory
    }
}

impl<T: Drop> From<AllocFailed<T>> for DeviceError {
    ghost use Rattle.key_device.specs.declared.device.DeviceError.TheVariants as error;

    ghost from_gives = { λ _ e. e ≡ error.Memory };

    fn from(_error: AllocFailed<T>) -> DeviceError {
        DeviceError::Memory
    }
}

/// A device that holds secret keys. Its ghost member says what it means to a caller; the laws of
/// that meaning are the clauses of the four calls and the law below them.
///
/// No call withdraws acceptance or ownership, and a call that is refused signs nothing.
pub trait KeyDevice {
    /// What it means at this moment: acceptance, ownership, its log, its next secret, its faults.
    ghost means: { Self → DeviceMeaning };

    /// Signs `bytes` under `key`. `NoKey` comes only where the device does not own the key.
    fn sign(&mut self, key: &KeyName, bytes: &[u8]) -> Result<Signature, DeviceError>
        ensures was_owned { OnOk result ((means self.old).owns key.now ≡ true) }
        ensures no_key { IsErrOf result NoKey → (means self.old).owns key.now ≡ false }
        ensures accepted { IfOk result (λ s. (means self.new).accepts key.now bytes.now s ≡ true) }
        ensures logged { IfOk result (λ s.
            GrewBy (log_entry key.now bytes.now s) (means self.old) (means self.new)) }
        ensures acceptance { StillAccepts (means self.old) (means self.new) }
        ensures ownership { OwnsSame (means self.old) (means self.new) }
        ensures exactness { (means self.new).exact ≡ (means self.old).exact }
        ensures refused { OnErr result (MeansSame (means self.old) (means self.new)) }
        ensures counted { (means self.old).faults ≤ (means self.new).faults }
        ensures failed { IsErrOf result Failed → CountsFault (means self.old) (means self.new) };

    /// Whether `signature` is accepted on `bytes` under `key`.
    fn check(
        &mut self,
        key: &KeyName,
        bytes: &[u8],
        signature: &Signature,
    ) -> Result<bool, DeviceError>
        ensures answer { IfOk result (λ yes.
            yes ≡ (means self.old).accepts key.now bytes.now signature.now) }
        ensures no_key { IsErrOf result NoKey → ⊥ }
        ensures stays { MeansSame (means self.old) (means self.new) }
        ensures counted { (means self.old).faults ≤ (means self.new).faults }
        ensures failed { IsErrOf result Failed → CountsFault (means self.old) (means self.new) };

    /// A new key, which the device owns from then on. That of an exact device was not owned before.
    fn fresh_key(&mut self) -> Result<KeyName, DeviceError>
        ensures owned { IfOk result (λ key. (means self.new).owns key ≡ true) }
        ensures new { (means self.old).exact ≡ true
            → IfOk result (λ key. (means self.old).owns key ≡ false) }
        ensures no_key { IsErrOf result NoKey → ⊥ }
        ensures acceptance { AcceptsSame (means self.old) (means self.new) }
        ensures ownership { StillOwns (means self.old) (means self.new) }
        ensures log { (means self.new).log ≡ (means self.old).log }
        ensures exactness { (means self.new).exact ≡ (means self.old).exact }
        ensures counted { (means self.old).faults ≤ (means self.new).faults }
        ensures failed { IsErrOf result Failed → CountsFault (means self.old) (means self.new) };

    /// A new secret of 32 bytes: the one that the device told to come next, where it tells that.
    fn fresh_secret(&mut self) -> Result<[u8; 32], DeviceError>
        ensures told { IfOk result (λ secret. IsSecretTold (means self.old) secret) }
        ensures no_key { IsErrOf result NoKey → ⊥ }
        ensures stays { MeansSame (means self.old) (means self.new) }
        ensures counted { (means self.old).faults ≤ (means self.new).faults }
        ensures failed { IsErrOf result Failed → CountsFault (means self.old) (means self.new) };

    /// An exact device tells its log, accepts exactly what stands in it, and owns each key in it.
    ghost exact_means: { (device : Self)
        → (means device).exact ≡ true → MeansItsLog (means device) };
}
