//! The table of verification methods and their keys (VC Data Integrity, 2.1).

ghost use Rattle.std.specs.Prelude.{◌≡◌};
ghost use Rattle.key_device.specs.Tables.{key_for};

use crate::keys::KeyName;
use base_types::{Sequence, Text};

/// Which key a verification method stands for.
#[derive(Clone, Debug, Drop)]
pub struct KeyEntry {
    pub method: Text,
    pub key: KeyName,
}

/// The keys of verification methods. Of two entries with one method the first counts.
#[derive(Clone, Debug, Drop)]
pub struct KeyTable {
    pub entries: Sequence<KeyEntry>,
}

impl KeyTable {
    /// The key of the first entry with this method. It takes no memory.
    pub fn find(&self, method: &str) -> Option<KeyName>
        ensures { result ≡ key_for self.now.entries method.now }
    {
        self.entries
            .as_slice()
            .iter()
            .find(|entry| entry.method.as_str() == method)
            .map(|entry| entry.key)
    }
}
