//! Issuing a base proof (Data Integrity ECDSA Cryptosuites 1.0, create base proof) in which every
//! statement is mandatory.

ghost use Rattle.std.specs.Prelude.{◌≡◌, ◌<◌, true, false, List, ℕ, map, IfOk, OnErr, IsErrOf, length};
ghost use Rattle.json_tree.specs.declared.tree.Tree.{Tree as AnyTree};
ghost use Rattle.key_device.specs.Devices.{CountsFault, IsSecretTold, MeansSame};
ghost use Rattle.key_device.specs.declared.device.DeviceError.TheVariants.{Failed, NoKey};
ghost use Rattle.nquads.specs.Terms.{Statement};
ghost use Rattle.nquads.specs.Spelling.{text_quad};
ghost use Rattle.proof_cbor.specs.Values.{IsDraft};
ghost use Rattle.stmt_groups.specs.Datasets.{IsLabelled};
ghost use Rattle.stmt_groups.specs.Records.{IsRecord};
ghost use Rattle.vc_session.specs.Requests.{with_proof};
ghost use Rattle.vc_session.specs.Issuing.{signed_bytes, unlabelled};
ghost use Rattle.vc_session.specs.Answers.{Keeps};
ghost use Rattle.vc_session.specs.Internal.Drafts.{IsObject, IsPrintable, document_with};
ghost use Rattle.vc_session.specs.Internal.Outcomes.{Issues, no_signature, whole_value};
ghost use Rattle.vc_session.specs.Internal.Tasks.{IsIssueTask};

use crate::draft::{Draft, draft_of};
use crate::lines::{self, lines_of};
use crate::tasks::IssueTask;
use digest_mac::Hash;
use json_tree::Tree;
use key_device::{DeviceError, KeyDevice, KeyName};
use nquads::{Memory, Sequence, Text, TextQuads};
use proof_cbor::{BaseDraft, BaseValue, draft_base};
use std::alloc::Global;
use stmt_groups::BaseRecord;

/// A document with its base proof, what was signed with it, and the number of its statements.
#[derive(Drop)]
pub(crate) struct IssuedDocument {
    pub document: Tree,
    pub base_record: BaseRecord,
    pub statements: u64,
}

/// Why nothing was issued; nothing was signed then.
#[derive(Drop)]
pub(crate) enum IssueFault {
    /// The document has no statement.
    NoStatements,
    /// The key table has no key for this verification method.
    UnknownMethod(Text),
    /// The device failed.
    Device,
    /// The device does not own the issuer's key.
    NoKey(KeyName),
    /// Out of memory.
    Memory,
}

impl From<Memory> for IssueFault {
    ghost use Rattle.vc_session.specs.declared.issuing.IssueFault.TheVariants as fault;

    ghost from_gives = { λ _ e. e ≡ fault.Memory };

    fn from(_memory: Memory) -> IssueFault {
        IssueFault::Memory
    }
}

/// A secret and a statement key that are new.
#[derive(Drop)]
struct Fresh {
    secret: [u8; 32],
    key: KeyName,
}

/// All that an issued document needs but the signature, with the memory for it.
#[derive(Drop)]
struct IssueDraft {
    base_record: BaseRecord,
    bytes: Vec<u8>,
    value: BaseDraft,
    document: Draft,
}

/// Secures the document of a task with a base proof in which every statement is mandatory.
///
/// The device is asked for a secret, for the statement key and, last, for the issuer's signature. All
/// memory is taken before that, so nothing is refused after it.
#[tactic(auto, using(crate::proofs::IssuedProofs::keeping))]
pub(crate) fn issue<D: KeyDevice>(
    alloc: Global,
    task: IssueTask,
    device: &mut D,
) -> Result<IssuedDocument, IssueFault>
    requires task { (r : AnyTree) × IsIssueTask r task }
    requires document { IsObject task.document × IsPrintable task.document }
    requires options { IsObject task.options × IsPrintable task.options }
    ensures outcome { (r : AnyTree) → IsIssueTask r task
        → Issues (D.means device.old) (D.means device.new) r result }
    ensures printable { IfOk result (λ made. IsPrintable made.document) }
    ensures unsigned { OnErr result ((D.means device.new).log ≡ (D.means device.old).log) }
    ensures keeps { Keeps (D.means device.old) (D.means device.new) }
{
    if task.quads.is_empty() {
        return Err(IssueFault::NoStatements);
    }
    let Some(issuer) = task.keys.find(task.method.as_str()) else {
        return Err(IssueFault::UnknownMethod(task.method));
    };
    let fresh = match secret_and_key(device) {
        Ok(fresh) => fresh,
        Err(DeviceError::Failed) => return Err(IssueFault::Device),
        Err(DeviceError::Memory) => return Err(IssueFault::Memory),
        Err(DeviceError::NoKey) => unreachable!(),
    };
    let statements = task.quads.len() as u64;
    let draft = prepare(alloc, task, issuer, &fresh)?;
    match device.sign(&issuer, &draft.bytes) {
        Ok(signature) => Ok(IssuedDocument {
            document: draft.document.finish(draft.value.finish(&signature.bytes)),
            base_record: draft.base_record,
            statements,
        }),
        Err(DeviceError::NoKey) => Err(IssueFault::NoKey(issuer)),
        Err(DeviceError::Failed) => Err(IssueFault::Device),
        Err(DeviceError::Memory) => Err(IssueFault::Memory),
    }
}

/// A new secret and a new key, which the device owns.
#[tactic(auto, using(crate::proofs::IssuedProofs::keeping))]
fn secret_and_key<D: KeyDevice>(device: &mut D) -> Result<Fresh, DeviceError>
    ensures secret { IfOk result (λ fresh. IsSecretTold (D.means device.old) fresh.secret) }
    ensures owned { IfOk result (λ fresh. (D.means device.new).owns fresh.key ≡ true) }
    ensures new { (D.means device.old).exact ≡ true
        → IfOk result (λ fresh. (D.means device.old).owns fresh.key ≡ false) }
    ensures no_key { IsErrOf result NoKey → ⊥ }
    ensures log { (D.means device.new).log ≡ (D.means device.old).log }
    ensures keeps { Keeps (D.means device.old) (D.means device.new) }
    ensures failed { IsErrOf result Failed → CountsFault (D.means device.old) (D.means device.new) }
{
    let secret = device.fresh_secret()?;
    let key = device.fresh_key()?;
    Ok(Fresh { secret, key })
}

/// What is signed, the draft of the proof value and that of the document.
fn prepare(
    alloc: Global,
    task: IssueTask,
    issuer: KeyName,
    fresh: &Fresh,
) -> Result<IssueDraft, Memory>
    requires document { IsObject task.document × IsPrintable task.document }
    requires options { IsObject task.options × IsPrintable task.options }
    ensures proof { IfOk result (λ d. (value : List ℕ)
        → document_with d.document value ≡ with_proof task.document task.options value) }
    ensures printable { IfOk result (λ d. (value : List ℕ)
        → IsPrintable (document_with d.document value)) }
    ensures within { IfOk result (λ d.
        (d.document.document.at < length d.document.document.members.items)
        × (d.document.options.at < length d.document.options.members.items)) }
    ensures issuer { IfOk result (λ d. d.base_record.issuer ≡ issuer) }
    ensures key { IfOk result (λ d. d.base_record.key ≡ fresh.now.key) }
    ensures record_is { (q o : List Statement)
        → task.quads ≡ map text_quad q → task.option_quads ≡ map text_quad o
        → IsLabelled (unlabelled q) → IsLabelled (unlabelled o)
        → IfOk result (λ d. IsRecord (unlabelled q) (unlabelled o) q d.base_record) }
    ensures bytes { IfOk result (λ d. d.bytes.items ≡ signed_bytes d.base_record) }
    ensures value { IfOk result (λ d.
        IsDraft (whole_value fresh.now.key.bytes fresh.now.secret no_signature) d.value) }
{
    let base_record = record(alloc, &task.quads, &task.option_quads, issuer, fresh.key)?;
    let bytes = lines::signed_bytes(
        alloc,
        base_record.options.as_slice(),
        &base_record.key,
        base_record.mandatory.as_slice(),
    )?;
    let value = value(alloc, fresh)?;
    let document = draft_of(alloc, task.document, task.options)?;
    Ok(IssueDraft {
        base_record,
        bytes,
        value,
        document,
    })
}

/// What is signed where every statement is mandatory.
#[tactic(auto, using(crate::proofs::IssuedProofs::draft_steps))]
fn record(
    alloc: Global,
    quads: &TextQuads,
    option_quads: &TextQuads,
    issuer: KeyName,
    key: KeyName,
) -> Result<BaseRecord, Memory>
    ensures issuer { IfOk result (λ made. made.issuer ≡ issuer) }
    ensures key { IfOk result (λ made. made.key ≡ key) }
    ensures is { (q o : List Statement)
        → quads.now ≡ map text_quad q → option_quads.now ≡ map text_quad o
        → IsLabelled (unlabelled q) → IsLabelled (unlabelled o)
        → IfOk result (λ made. IsRecord (unlabelled q) (unlabelled o) q made) }
{
    let mandatory = lines_of(alloc, quads)?;
    let options = lines_of(alloc, option_quads)?;
    Ok(BaseRecord {
        hash: Hash::Sha256,
        issuer,
        key,
        options,
        mandatory,
        others: Sequence::new(alloc),
    })
}

/// The draft of a proof value in which every statement is mandatory.
#[tactic(auto, using(crate::proofs::IssuedProofs::draft_steps), unfolding(crate::specs::Internal::Outcomes::no_signature))]
fn value(alloc: Global, fresh: &Fresh) -> Result<BaseDraft, Memory>
    ensures value { IfOk result (λ d.
        IsDraft (whole_value fresh.now.key.bytes fresh.now.secret no_signature) d) }
{
    let mut pointers = Sequence::new(alloc);
    pointers.push(Text::new(alloc))?;
    let value = BaseValue {
        hash: Hash::Sha256,
        signature: [0; 64],
        key: fresh.key.bytes,
        secret: fresh.secret,
        signatures: Sequence::new(alloc),
        pointers,
    };
    draft_base(alloc, &value)
}
