//! A device for tests, which keeps what it was asked.

use key_device::{DeviceError, KeyDevice, KeyName, Signature};
use nquads::Memory;
use std::alloc::Global;

/// A device that does what another does, and keeps a line for each call.
#[derive(Drop)]
pub struct WatchedDevice<D> {
    alloc: Global,
    device: D,
    calls: String,
}

impl<D> WatchedDevice<D> {
    pub fn new(alloc: Global, device: D) -> WatchedDevice<D> {
        WatchedDevice {
            alloc,
            device,
            calls: String::new(alloc),
        }
    }

    /// The calls, in order, a line each.
    pub fn calls(&self) -> &str {
        self.calls.as_str()
    }
}

/// Adds the line of a call with a key and bytes.
fn note(
    alloc: Global,
    calls: &mut String,
    name: &str,
    key: &KeyName,
    bytes: &[u8],
) -> Result<(), Memory> {
    let key = hex::encode(alloc, &key.bytes)?;
    let bytes = hex::encode(alloc, bytes)?;
    for part in [name, " ", key.as_str(), " ", bytes.as_str(), "\n"] {
        calls.push_str(part)?;
    }
    Ok(())
}

impl<D: KeyDevice> KeyDevice for WatchedDevice<D> {
    ghost means = { λ w. D.means w.device };

    ghost exact_means = { λ w exact. D.exact_means w.device exact };

    #[tactic(auto, using(vc_session::proofs::OutcomeReplies::means_itself))]
    fn sign(&mut self, key: &KeyName, bytes: &[u8]) -> Result<Signature, DeviceError> {
        note(self.alloc, &mut self.calls, "sign", key, bytes)?;
        self.device.sign(key, bytes)
    }

    #[tactic(auto, using(vc_session::proofs::OutcomeReplies::means_itself))]
    fn check(
        &mut self,
        key: &KeyName,
        bytes: &[u8],
        signature: &Signature,
    ) -> Result<bool, DeviceError> {
        note(self.alloc, &mut self.calls, "check", key, bytes)?;
        self.device.check(key, bytes, signature)
    }

    #[tactic(auto, using(vc_session::proofs::OutcomeReplies::means_itself))]
    fn fresh_key(&mut self) -> Result<KeyName, DeviceError> {
        self.calls.push_str("key\n")?;
        self.device.fresh_key()
    }

    #[tactic(auto, using(vc_session::proofs::OutcomeReplies::means_itself))]
    fn fresh_secret(&mut self) -> Result<[u8; 32], DeviceError> {
        self.calls.push_str("secret\n")?;
        self.device.fresh_secret()
    }
}
