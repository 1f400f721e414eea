//! The key device: whatever holds secret keys, signs under them and checks signatures.
//!
//! The rest of the program asks for signatures through the trait `KeyDevice` alone, so what it
//! promises rests on that trait's laws and on no scheme of signatures. `LedgerDevice` is the exact
//! device: it accepts just what it signed, and its keys, signatures and secrets can be told
//! beforehand. `HmacDevice` signs by HMAC-SHA256 (RFC 2104), and accepts what any device with its root
//! signed. `FailingDevice` and `BrokenDevice` fail, at chosen calls and always. `KeyTable` says which
//! key a verification method of a Data Integrity proof stands for (VC Data Integrity, 2.1).
#![tactic(auto)]

mod broken_device;
mod device;
mod failing_device;
mod hmac_device;
mod keys;
pub mod laws;
mod ledger;
mod table;
mod uses;

pub use base_types::{Memory, Sequence, Text};
pub use broken_device::BrokenDevice;
pub use device::{DeviceError, KeyDevice, SignedEntry};
pub use failing_device::FailingDevice;
pub use hmac_device::HmacDevice;
pub use keys::{KeyName, Signature};
pub use ledger::LedgerDevice;
pub use table::{KeyEntry, KeyTable};
pub use uses::{
    sign_among_others, sign_and_check, sign_for_log, sign_with_fresh_key, sign_with_new_ledger,
};
