//! Labels of blank nodes by a keyed digest (Data Integrity ECDSA Cryptosuites 1.0,
//! createHmacIdLabelMapFunction).
//!
//! `labels` gives each blank node that has a canonical label the label of its canonical number under
//! a key, by either hash, and the digests by these numbers. Where two numbers have one label it
//! answers the least such pair.
#![tactic(auto)]

mod clash;
mod digests;
mod fault;
mod labelling;
pub mod laws;

pub use base_types::{Memory, Sequence, Text};
pub use fault::LabelFault;
pub use labelling::{HmacLabels, labels};
