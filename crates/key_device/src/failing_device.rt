//! A device that fails at chosen calls, over an inner one.

ghost use Rattle.std.specs.Prelude.{◌≡◌, ◌≤◌, true, false, Err, IfOk, OnOk, OnErr, IsErrOf};
ghost use Rattle.key_device.specs.declared.device.DeviceError.TheVariants as error;
ghost use Rattle.key_device.specs.Devices.{CountsFault, MeansSame, AcceptsSame, StillAccepts, OwnsSame, StillOwns, GrewBy, IsSecretTold, log_entry};
ghost use Rattle.key_device.specs.FailingDevices.{uncalled_device, CallFails, after_failure, after_call, FailsAsListed, failing_meaning};

use crate::device::{DeviceError, KeyDevice};
use crate::keys::{KeyName, Signature};
use std::marker::Model;

/// A device that does what an inner one does, but fails at the calls whose numbers it was given.
/// Calls of all four kinds are counted together, from 1. Where it fails by the number, the inner
/// device is not called.
#[derive(Drop)]
pub struct FailingDevice<D> {
    inner: D,
    fails: Vec<u64>,
    calls: u64,
    count: u64,
}

impl<D> Model for FailingDevice<D> {
    ghost use Rattle.key_device.specs.FailingDevices.{FailingState, failing_code};

    ghost Value = { FailingState D };

    ghost coded = { failing_code D.code };

    ghost view = { λ d. record {
      inner = d.inner;
      fails = d.fails.items;
      calls = d.calls;
      count = d.count;
    } };
}

impl<D> FailingDevice<D> {
    /// A device over `inner`, called no time yet. It takes no memory.
    pub fn new(inner: D, fails: Vec<u64>) -> FailingDevice<D>
        ensures { result ≡ uncalled_device inner fails.items }
    {
        FailingDevice {
            inner,
            fails,
            calls: 0,
            count: 0,
        }
    }
}

impl<D: KeyDevice> FailingDevice<D> {
    /// Counts a call: `Failed` exactly where it fails by its number.
    fn next_call(&mut self) -> Result<(), DeviceError>
        ensures failed { OnErr result (CallFails self.old × (result ≡ Err error.Failed)
            × (self.new ≡ after_failure self.old)) }
        ensures passed { OnOk result ((CallFails self.old → ⊥)
            × (self.new ≡ after_call self.old self.old.inner)) }
    {
        self.calls = self.calls.saturating_add(1);
        if !self.fails.contains(&self.calls) {
            return Ok(());
        }
        self.count = self.count.saturating_add(1);
        Err(DeviceError::Failed)
    }
}

impl<D: KeyDevice> KeyDevice for FailingDevice<D> {
    ghost use Rattle.key_device.specs.Exact.{failing_means_its_log};
    ghost use Rattle.key_device.specs.FailingDevices.{failing_meaning};

    ghost means = { failing_meaning D.means };

    ghost exact_means = { λ d exact.
        failing_means_its_log D.means d (D.exact_means d.inner exact) };

    #[tactic(auto, using(crate::proofs::Counting::counting))]
    fn sign(&mut self, key: &KeyName, bytes: &[u8]) -> Result<Signature, DeviceError>
        ensures listed { FailsAsListed D.means self.old self.new (IsErrOf result error.Failed) }
        ensures was_owned { let m = failing_meaning D.means in
            OnOk result ((m self.old).owns key.now ≡ true) }
        ensures no_key { let m = failing_meaning D.means in
            IsErrOf result error.NoKey → (m self.old).owns key.now ≡ false }
        ensures accepted { let m = failing_meaning D.means in
            IfOk result (λ s. (m self.new).accepts key.now bytes.now s ≡ true) }
        ensures logged { let m = failing_meaning D.means in IfOk result (λ s.
            GrewBy (log_entry key.now bytes.now s) (m self.old) (m self.new)) }
        ensures acceptance { let m = failing_meaning D.means in
            StillAccepts (m self.old) (m self.new) }
        ensures ownership { let m = failing_meaning D.means in OwnsSame (m self.old) (m self.new) }
        ensures exactness { let m = failing_meaning D.means in
            (m self.new).exact ≡ (m self.old).exact }
        ensures refused { let m = failing_meaning D.means in
            OnErr result (MeansSame (m self.old) (m self.new)) }
        ensures counted { let m = failing_meaning D.means in
            (m self.old).faults ≤ (m self.new).faults }
        ensures failed { let m = failing_meaning D.means in
            IsErrOf result error.Failed → CountsFault (m self.old) (m self.new) }
    {
        self.next_call()?;
        self.inner.sign(key, bytes)
    }

    #[tactic(auto, using(crate::proofs::Counting::counting))]
    fn check(
        &mut self,
        key: &KeyName,
        bytes: &[u8],
        signature: &Signature,
    ) -> Result<bool, DeviceError>
        ensures listed { FailsAsListed D.means self.old self.new (IsErrOf result error.Failed) }
        ensures answer { let m = failing_meaning D.means in IfOk result (λ yes.
            yes ≡ (m self.old).accepts key.now bytes.now signature.now) }
        ensures no_key { IsErrOf result error.NoKey → ⊥ }
        ensures stays { let m = failing_meaning D.means in MeansSame (m self.old) (m self.new) }
        ensures counted { let m = failing_meaning D.means in
            (m self.old).faults ≤ (m self.new).faults }
        ensures failed { let m = failing_meaning D.means in
            IsErrOf result error.Failed → CountsFault (m self.old) (m self.new) }
    {
        self.next_call()?;
        self.inner.check(key, bytes, signature)
    }

    #[tactic(auto, using(crate::proofs::Counting::counting))]
    fn fresh_key(&mut self) -> Result<KeyName, DeviceError>
        ensures listed { FailsAsListed D.means self.old self.new (IsErrOf result error.Failed) }
        ensures owned { let m = failing_meaning D.means in
            IfOk result (λ key. (m self.new).owns key ≡ true) }
        ensures new { let m = failing_meaning D.means in (m self.old).exact ≡ true
            → IfOk result (λ key. (m self.old).owns key ≡ false) }
        ensures no_key { IsErrOf result error.NoKey → ⊥ }
        ensures acceptance { let m = failing_meaning D.means in
            AcceptsSame (m self.old) (m self.new) }
        ensures ownership { let m = failing_meaning D.means in
            StillOwns (m self.old) (m self.new) }
        ensures log { let m = failing_meaning D.means in (m self.new).log ≡ (m self.old).log }
        ensures exactness { let m = failing_meaning D.means in
            (m self.new).exact ≡ (m self.old).exact }
        ensures counted { let m = failing_meaning D.means in
            (m self.old).faults ≤ (m self.new).faults }
        ensures failed { let m = failing_meaning D.means in
            IsErrOf result error.Failed → CountsFault (m self.old) (m self.new) }
    {
        self.next_call()?;
        self.inner.fresh_key()
    }

    #[tactic(auto, using(crate::proofs::Counting::counting))]
    fn fresh_secret(&mut self) -> Result<[u8; 32], DeviceError>
        ensures listed { FailsAsListed D.means self.old self.new (IsErrOf result error.Failed) }
        ensures told { let m = failing_meaning D.means in
            IfOk result (λ secret. IsSecretTold (m self.old) secret) }
        ensures no_key { IsErrOf result error.NoKey → ⊥ }
        ensures stays { let m = failing_meaning D.means in MeansSame (m self.old) (m self.new) }
        ensures counted { let m = failing_meaning D.means in
            (m self.old).faults ≤ (m self.new).faults }
        ensures failed { let m = failing_meaning D.means in
            IsErrOf result error.Failed → CountsFault (m self.old) (m self.new) }
    {
        self.next_call()?;
        self.inner.fresh_secret()
    }
}
