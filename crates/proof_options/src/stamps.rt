//! A time stamp and its instant.

use base_types::Text;

/// A time stamp. Stamps are compared by their instants.
#[derive(Debug, Drop)]
pub struct Stamp {
    /// The stamp as it is written.
    pub text: Text,
    /// Nanoseconds from 1970-01-01T00:00:00Z, below 0 before it; each day has 86,400 seconds.
    pub nanosecond: i128,
}
