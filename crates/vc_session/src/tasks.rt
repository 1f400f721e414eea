//! What flat requests for issuing and for verifying ask for.

use json_tree::Tree;
use key_device::KeyTable;
use nquads::{Text, TextQuads};

/// What a flat request for issuing asks for: the document and the proof options, the statements of both,
/// the verification method, and the keys.
#[derive(Drop)]
pub(crate) struct IssueTask {
    pub document: Tree,
    pub options: Tree,
    pub quads: TextQuads,
    pub option_quads: TextQuads,
    pub method: Text,
    pub keys: KeyTable,
}

/// What a flat request for verifying asks for: the statements of the document and of the proof options,
/// the verification method, the proof value, and the keys.
#[derive(Drop)]
pub(crate) struct VerifyTask {
    pub quads: TextQuads,
    pub option_quads: TextQuads,
    pub method: Text,
    pub value: Text,
    pub keys: KeyTable,
}
