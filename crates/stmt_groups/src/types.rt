//! Records of base proofs, and why a document, a dataset or a pointer is refused.

use base_types::{Sequence, Text};
use digest_mac::Hash;
use key_device::KeyName;
use std::fmt;

/// Which dataset a refusal speaks of.
#[derive(Clone, Copy, Debug, PartialEq, Eq)]
pub enum Which {
    /// The document without its proof.
    Document,
    /// The proof options.
    Options,
    /// The document that a derivation shows.
    Derived,
}

/// Which list of pointers a refusal speaks of.
#[derive(Clone, Copy, Debug, PartialEq, Eq)]
pub enum ListName {
    /// The pointers to what every derivation shows.
    Mandatory,
    /// The pointers to what this derivation shows besides.
    Chosen,
}

/// A pointer that was refused: its list, its place there from 0, and the byte where its text is no
/// JSON Pointer; without that byte it names no place.
#[derive(Clone, Copy, Debug, PartialEq, Eq)]
pub struct PointerRefusal {
    pub list: ListName,
    pub index: u64,
    pub bad: Option<u64>,
}

/// Why a document does not verify.
#[derive(Debug, Drop, PartialEq, Eq)]
pub enum Cause {
    /// It has no statement.
    Nothing,
    /// The label map is not one-to-one on the document's canonical numbers; the least such number.
    Labels(u64),
    /// The mandatory index at this place of the list is no statement's.
    Indexes(u64),
    /// There are not as many signatures as statements that are not mandatory.
    Count { signatures: u64, statements: u64 },
    /// The proof expired before the given moment.
    Expired { expires: Text, moment: Text },
    /// The issuer's signature is not accepted.
    BaseSignature,
    /// The signature of this statement is not accepted, and those before it are; counted from 0
    /// among the statements that are not mandatory.
    StatementSignature(u64),
}

impl fmt::Display for Cause {
    fn fmt<W: fmt::Write>(&self, f: &mut fmt::Formatter<W>) -> fmt::Result {
        match self {
            Cause::Nothing => f.write_str("the document has no statement"),
            Cause::Labels(number) => write!(f, "the label map is not one-to-one at {number}"),
            Cause::Indexes(place) => {
                write!(f, "the mandatory index at place {place} is no statement's")
            }
            Cause::Count {
                signatures,
                statements,
            } => write!(
                f,
                "{signatures} signatures stand for {statements} statements that are not mandatory"
            ),
            Cause::Expired { expires, moment } => {
                let expires = expires.as_str();
                let moment = moment.as_str();
                write!(f, "the proof expired at {expires}, before {moment}")
            }
            Cause::BaseSignature => f.write_str("the issuer's signature is not accepted"),
            Cause::StatementSignature(place) => {
                write!(
                    f,
                    "the signature of the statement at place {place} is not accepted"
                )
            }
        }
    }
}

/// What was signed with one base proof: the hash, the issuer's key, the statement key, and the
/// canonical lines of the proof options, of the mandatory statements and of the others, each in
/// code-point order.
#[derive(Debug, Drop, PartialEq, Eq)]
pub struct BaseRecord {
    pub hash: Hash,
    pub issuer: KeyName,
    pub key: KeyName,
    pub options: Sequence<Text>,
    pub mandatory: Sequence<Text>,
    pub others: Sequence<Text>,
}
