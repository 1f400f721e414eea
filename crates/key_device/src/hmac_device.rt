//! The device by HMAC: it signs under keys that are made of one root, and draws fresh keys and secrets
//! from ChaCha20.

ghost use Rattle.std.specs.Prelude.{◌≡◌, ◌++◌, true, false, length, Ok, Err, IfOk, OnOk, IsErrOf};
ghost use Rattle.key_device.specs.declared.device.DeviceError.TheVariants as error;
ghost use Rattle.key_device.specs.HmacDevices.{device_of, owns_name, secret_key, hmac_signature, hmac_accepts, fresh_bytes, fresh_name, after_draw};

use crate::device::{DeviceError, KeyDevice};
use crate::keys::{KeyName, Signature};
use digest_mac::{Digest, Hash, hmac};
use rand_chacha::ChaCha20Rng;
use rand_core::SeedableRng;
use rand_core::utils::fill_bytes_via_u32;
use std::marker::Model;

/// A device that signs by HMAC-SHA256 (RFC 2104). It owns each key whose name begins with two zero
/// bytes: the secret key is made of the root and the name, so a device with the same root accepts
/// what this one signed. Who can check can also sign. It never fails, and takes no memory.
#[derive(Drop)]
pub struct HmacDevice {
    root: [u8; 32],
    generator: ChaCha20Rng,
}

impl Model for HmacDevice {
    ghost use Rattle.key_device.specs.HmacDevices.{HmacState};

    ghost Value = { HmacState };

    ghost view = { λ d. record { root = d.root; generator = d.generator } };
}

impl HmacDevice {
    /// A device with this root, whose fresh keys and secrets are drawn from the key stream of
    /// ChaCha20 under this seed (RFC 8439), from its start.
    pub fn new(root: [u8; 32], seed: [u8; 32]) -> HmacDevice
        ensures { result ≡ device_of root seed }
    {
        HmacDevice {
            root,
            generator: ChaCha20Rng::from_seed(seed),
        }
    }
}

/// Whether the device owns the key with this name.
fn owns_name(name: &KeyName) -> bool
    ensures { result ≡ owns_name name.now }
{
    name.bytes.as_slice().starts_with(&[0, 0])
}

/// The secret key of a name.
fn secret_key(root: &[u8; 32], name: &KeyName) -> Digest
    ensures { result ≡ secret_key root.now name.now }
{
    hmac(Hash::Sha256, root.as_slice(), &[], name.bytes.as_slice())
}

/// Two digests of 32 bytes, one after the other.
#[tactic(auto, using(crate::proofs::Halves::halves))]
fn joined(first: &Digest, second: &Digest) -> [u8; 64]
    requires first { length first.now ≡ 32 }
    requires second { length second.now ≡ 32 }
    ensures { result ≡ first.now ++ second.now }
{
    let mut bytes = [0; 64];
    bytes[..32].copy_from_slice(first.as_slice());
    bytes[32..].copy_from_slice(second.as_slice());
    bytes
}

/// The signature on `bytes` under the key with this name.
#[tactic(auto, using(crate::proofs::Halves::halves), unfolding(crate::specs::HmacDevices::hmac_signature))]
fn hmac_signature(root: &[u8; 32], name: &KeyName, bytes: &[u8]) -> Signature
    ensures { result ≡ hmac_signature root.now name.now bytes.now }
{
    let secret = secret_key(root, name);
    let first = hmac(Hash::Sha256, secret.as_slice(), &[0], bytes);
    let second = hmac(Hash::Sha256, secret.as_slice(), &[1], bytes);
    Signature {
        bytes: joined(&first, &second),
    }
}

/// The next 32 bytes of the generator. `Rng::fill_bytes` gives the same ones, but its contract does
/// not say where in its stream the generator is then.
#[tactic(auto, unfolding(crate::specs::HmacDevices::fresh_bytes))]
fn fresh_bytes(generator: &mut ChaCha20Rng) -> [u8; 32]
    ensures { (result, generator.new) ≡ fresh_bytes generator.old }
{
    let mut bytes = [0; 32];
    fill_bytes_via_u32(generator, &mut bytes);
    bytes
}

/// The name of the fresh key with these bytes.
#[tactic(auto, unfolding(crate::specs::HmacDevices::fresh_name))]
fn fresh_name(bytes: &[u8; 32]) -> KeyName
    ensures name { result ≡ fresh_name bytes.now }
    ensures owned { owns_name result ≡ true }
{
    let mut name = [0; 35];
    name[2] = 1;
    name[3..].copy_from_slice(bytes.as_slice());
    KeyName { bytes: name }
}

impl KeyDevice for HmacDevice {
    ghost use Rattle.std.proofs.lemmas.Bool.{false≢true};
    ghost use Rattle.key_device.specs.HmacDevices.{hmac_meaning};

    ghost means = { hmac_meaning };

    ghost exact_means = { λ d exact. absurd (false≢true exact) };

    #[tactic(auto, using(crate::proofs::Halves::accepting))]
    fn sign(&mut self, key: &KeyName, bytes: &[u8]) -> Result<Signature, DeviceError>
        ensures signature { owns_name key.now ≡ true
            → result ≡ Ok (hmac_signature self.old.root key.now bytes.now) }
        ensures not_owned { owns_name key.now ≡ false → result ≡ Err error.NoKey }
        ensures was_owned { OnOk result (owns_name key.now ≡ true) }
        ensures no_key { IsErrOf result error.NoKey → owns_name key.now ≡ false }
        ensures never_fails { IsErrOf result error.Failed → ⊥ }
        ensures accepted { IfOk result (λ s.
            hmac_accepts self.new.root key.now bytes.now s ≡ true) }
        ensures unchanged { self.new ≡ self.old }
    {
        if !owns_name(key) {
            return Err(DeviceError::NoKey);
        }
        Ok(hmac_signature(&self.root, key, bytes))
    }

    fn check(
        &mut self,
        key: &KeyName,
        bytes: &[u8],
        signature: &Signature,
    ) -> Result<bool, DeviceError>
        ensures says { result ≡ Ok (hmac_accepts self.old.root key.now bytes.now signature.now) }
        ensures unchanged { self.new ≡ self.old }
    {
        Ok(owns_name(key) && *signature == hmac_signature(&self.root, key, bytes))
    }

    fn fresh_key(&mut self) -> Result<KeyName, DeviceError>
        ensures name { result ≡ Ok (fresh_name (fresh_bytes self.old.generator).0) }
        ensures owned { IfOk result (λ key. owns_name key ≡ true) }
        ensures after { self.new ≡ after_draw self.old }
    {
        let bytes = fresh_bytes(&mut self.generator);
        Ok(fresh_name(&bytes))
    }

    fn fresh_secret(&mut self) -> Result<[u8; 32], DeviceError>
        ensures secret { result ≡ Ok (fresh_bytes self.old.generator).0 }
        ensures after { self.new ≡ after_draw self.old }
    {
        Ok(fresh_bytes(&mut self.generator))
    }
}
