//! What the commands answer: each reads a request to its end from a source, and gives the reply as a value.
//!
//! `statements` gives the canonical N-Quads of a document, `issue` secures a document with a base proof in
//! which every statement is mandatory, and `verify` checks a derived proof of such a document (Data
//! Integrity ECDSA Cryptosuites 1.0, ecdsa-sd-2023). `Reply::as_bytes` has what is written. Nothing is
//! written here, and which words name a command stands in the program. `specs/Answers` says which reply a
//! request has and what is left of the device.
#![tactic(auto)]

mod commands;
mod draft;
mod input;
mod issuing;
mod keys;
mod lines;
mod options;
mod reply;
mod reply_lines;
mod requests;
mod tasks;
mod verifying;

pub use commands::{issue, statements, verify};
pub use reply::Reply;
