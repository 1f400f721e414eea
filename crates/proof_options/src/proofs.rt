//! What options and a secured document give.

use crate::stamps::Stamp;
use base_types::Text;
use json_tree::Tree;

/// Options of the shape that a proof has.
#[derive(Debug, Drop)]
pub struct Options {
    /// The options themselves, an object without `proofValue`.
    pub tree: Tree,
    /// Their `verificationMethod`.
    pub method: Text,
    /// Their `expires`, where it is there.
    pub expires: Option<Stamp>,
}

/// A secured document, split.
#[derive(Debug, Drop)]
pub struct SplitProof {
    /// The document without `proof`.
    pub body: Tree,
    /// The proof without `proofValue`.
    pub options: Options,
    /// The `proofValue`.
    pub value: Text,
}
