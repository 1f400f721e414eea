//! A device that cannot be used: each call fails.

ghost use Rattle.std.specs.Prelude.{◌≡◌, ◌≤◌, Err};
ghost use Rattle.base_types.specs.Counts.{HasRisen, one_more};
ghost use Rattle.key_device.specs.declared.device.DeviceError.TheVariants as error;

use crate::device::{DeviceError, KeyDevice};
use crate::keys::{KeyName, Signature};
use std::marker::Model;

/// A device that fails at each call, and counts that. Contracts see it as that count.
#[derive(Drop)]
pub struct BrokenDevice {
    count: u64,
}

impl Model for BrokenDevice {
    ghost use Rattle.std.specs.Prelude.{ℕ};

    ghost Value = { ℕ };

    ghost view = { λ d. d.count };
}

impl BrokenDevice {
    /// A device that was not called yet.
    pub fn new() -> BrokenDevice
        ensures { result ≡ 0 }
    {
        BrokenDevice { count: 0 }
    }

    /// Counts a failure.
    fn fail(&mut self) -> DeviceError
        ensures error { result ≡ error.Failed }
        ensures counts { self.new ≡ one_more self.old }
        ensures counted { self.old ≤ self.new }
        ensures rises { HasRisen self.old self.new }
    {
        self.count = self.count.saturating_add(1);
        DeviceError::Failed
    }
}

impl KeyDevice for BrokenDevice {
    ghost use Rattle.std.proofs.lemmas.Bool.{false≢true};
    ghost use Rattle.key_device.specs.FailingDevices.{broken_meaning};

    ghost means = { broken_meaning };

    ghost exact_means = { λ d exact. absurd (false≢true exact) };

    fn sign(&mut self, _key: &KeyName, _bytes: &[u8]) -> Result<Signature, DeviceError>
        ensures fails { result ≡ Err error.Failed }
        ensures counts { self.new ≡ one_more self.old }
        ensures counted { self.old ≤ self.new }
        ensures rises { HasRisen self.old self.new }
    {
        Err(self.fail())
    }

    fn check(
        &mut self,
        _key: &KeyName,
        _bytes: &[u8],
        _signature: &Signature,
    ) -> Result<bool, DeviceError>
        ensures fails { result ≡ Err error.Failed }
        ensures counts { self.new ≡ one_more self.old }
        ensures counted { self.old ≤ self.new }
        ensures rises { HasRisen self.old self.new }
    {
        Err(self.fail())
    }

    fn fresh_key(&mut self) -> Result<KeyName, DeviceError>
        ensures fails { result ≡ Err error.Failed }
        ensures counts { self.new ≡ one_more self.old }
        ensures counted { self.old ≤ self.new }
        ensures rises { HasRisen self.old self.new }
    {
        Err(self.fail())
    }

    fn fresh_secret(&mut self) -> Result<[u8; 32], DeviceError>
        ensures fails { result ≡ Err error.Failed }
        ensures counts { self.new ≡ one_more self.old }
        ensures counted { self.old ≤ self.new }
        ensures rises { HasRisen self.old self.new }
    {
        Err(self.fail())
    }
}
