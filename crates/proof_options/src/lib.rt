//! The options of a Data Integrity proof: their shape, and the time stamps in them (Data Integrity
//! 1.0, 2.1; XML Schema 1.1, part 2, 3.4.28).
//!
//! `check` looks at options by themselves, `split` takes a secured document into its body, its
//! options and its proof value, and `read_stamp` gives the instant of a stamp. Both refuse the first
//! field that is not as it must be, in the order of `Field`.
#![tactic(auto)]

mod checking;
mod fault;
mod fields;
mod instants;
pub mod laws;
mod proofs;
mod reading;
mod stamps;

pub use base_types::{Memory, Text};
pub use checking::{check, check_as, split, split_as};
pub use fault::{Field, OptionFault, Suite};
pub use instants::read_stamp;
pub use proofs::{Options, SplitProof};
pub use stamps::Stamp;
