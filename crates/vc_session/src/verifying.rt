//! Verifying a derived proof (Data Integrity ECDSA Cryptosuites 1.0, verify derived proof) in which every
//! statement is mandatory.

ghost use Rattle.std.specs.Prelude.{◌≡◌, ◌≢◌, ◌↔◌, ◌≤◌, true, false, List, [], All, map, IfOk, IsTrue, length, nat_le};
ghost use Rattle.std.specs.List.{position};
ghost use Rattle.base_types.specs.Order.{rise};
ghost use Rattle.json_tree.specs.declared.tree.Tree.{Tree as AnyTree};
ghost use Rattle.key_device.specs.Devices.{MeansSame};
ghost use Rattle.proof_cbor.specs.declared.fault.ValueFault.TheVariants as value_fault;
ghost use Rattle.vc_session.specs.Internal.Outcomes.{IsCauseOf, ReadsPlain, Verifies};
ghost use Rattle.vc_session.specs.Internal.Tasks.{IsVerifyTask};
ghost use Rattle.vc_session.specs.Verifying.{IsPlainValue};

use crate::lines::{lines_of, signed_bytes};
use crate::tasks::VerifyTask;
use digest_mac::Hash;
use key_device::{DeviceError, KeyDevice, KeyName, Signature};
use nquads::{Memory, Sequence, Text};
use proof_cbor::{CborFault, DerivedValue, ValueFault, decode_derived};
use std::alloc::Global;
use stmt_groups::Cause;

/// What a document says that verifies: the issuer's key, the statement key, the places of the mandatory
/// statements, and the number of statements.
#[derive(Drop)]
pub(crate) struct AcceptedProof {
    pub issuer: KeyName,
    pub key: KeyName,
    pub mandatory: Sequence<u64>,
    pub statements: u64,
}

/// Whether a document verifies.
#[derive(Drop)]
pub(crate) enum Verdict {
    Yes(AcceptedProof),
    No(Cause),
}

/// Why there is no verdict.
#[derive(Drop)]
pub(crate) enum VerifyFault {
    /// The proof value has signatures or labels.
    NotBuilt,
    /// The proof value is none by SHA-256.
    Value(ValueFault),
    /// The key table has no key for this verification method.
    UnknownMethod(Text),
    /// The device failed.
    Device,
    /// Out of memory.
    Memory,
}

impl From<Memory> for VerifyFault {
    ghost use Rattle.vc_session.specs.declared.verifying.VerifyFault.TheVariants as fault;

    ghost from_gives = { λ _ e. e ≡ fault.Memory };

    fn from(_memory: Memory) -> VerifyFault {
        VerifyFault::Memory
    }
}

/// Checks the proof of a task. The causes are looked for in the order of `Cause`; the device is asked last.
pub(crate) fn verify<D: KeyDevice>(
    alloc: Global,
    task: VerifyTask,
    device: &mut D,
) -> Result<Verdict, VerifyFault>
    requires { (r : AnyTree) × IsVerifyTask r task }
    ensures outcome { (r : AnyTree) → IsVerifyTask r task
        → Verifies (D.means device.old) (D.means device.new) r result }
    ensures stays { MeansSame (D.means device.old) (D.means device.new) }
    ensures count { (D.means device.old).faults ≤ (D.means device.new).faults }
{
    let value = plain_value(alloc, task.value.as_str())?;
    let lines = lines_of(alloc, &task.quads)?;
    let option_lines = lines_of(alloc, &task.option_quads)?;
    if let Some(cause) = cause_of(lines.as_slice(), value.indexes.as_slice()) {
        return Ok(Verdict::No(cause));
    }
    let Some(issuer) = task.keys.find(task.method.as_str()) else {
        return Err(VerifyFault::UnknownMethod(task.method));
    };
    let key = KeyName { bytes: value.key };
    let signature = Signature {
        bytes: value.signature,
    };
    let bytes = signed_bytes(alloc, option_lines.as_slice(), &key, lines.as_slice())?;
    match device.check(&issuer, &bytes, &signature) {
        Ok(true) => Ok(Verdict::Yes(AcceptedProof {
            issuer,
            key,
            mandatory: value.indexes,
            statements: task.quads.len() as u64,
        })),
        Ok(false) => Ok(Verdict::No(Cause::BaseSignature)),
        Err(DeviceError::Failed) => Err(VerifyFault::Device),
        Err(DeviceError::NoKey) => Err(VerifyFault::Device),
        Err(DeviceError::Memory) => Err(VerifyFault::Memory),
    }
}

/// The value by SHA-256 that a text spells, if it has neither signatures nor labels.
#[tactic(auto, using(crate::proofs::Verdicts::value_steps))]
fn plain_value(alloc: Global, text: &str) -> Result<DerivedValue, VerifyFault>
    ensures { ReadsPlain text.now result }
{
    match decode_derived(alloc, text) {
        Ok(value) => match value.hash {
            Hash::Sha384 => Err(VerifyFault::Value(ValueFault::Header)),
            Hash::Sha256 => {
                if !is_plain(&value) {
                    return Err(VerifyFault::NotBuilt);
                }
                Ok(value)
            }
        },
        Err(fault) => {
            if is_out_of_memory(&fault) {
                return Err(VerifyFault::Memory);
            }
            Err(VerifyFault::Value(fault))
        }
    }
}

/// Whether a value was not read because there was no memory.
fn is_out_of_memory(fault: &ValueFault) -> bool
    ensures { result ≡ false → fault.now ≢ value_fault.Memory }
{
    match fault {
        ValueFault::Memory | ValueFault::Cbor(CborFault::Memory) => true,
        ValueFault::NotMultibase | ValueFault::Header | ValueFault::Cbor(_) => false,
        ValueFault::Shape(_) | ValueFault::Length(_) | ValueFault::Indexes => false,
    }
}

fn is_plain(value: &DerivedValue) -> bool
    ensures { IsTrue result ↔ IsPlainValue value.now }
{
    value.signatures.is_empty() && value.labels.is_empty()
}

/// The cause that is found before a key is asked for, of a proof without signatures.
#[tactic(auto, using(crate::proofs::Verdicts::cause_steps))]
fn cause_of(lines: &[Text], indexes: &[u64]) -> Option<Cause>
    requires { rise indexes.now ≡ true }
    ensures { IsCauseOf lines.now indexes.now result }
{
    if lines.is_empty() {
        return Some(Cause::Nothing);
    }
    if let Some(k) = first_over(indexes, lines.len() as u64) {
        return Some(Cause::Indexes(k as u64));
    }
    if indexes.len() < lines.len() {
        return Some(Cause::Count {
            signatures: 0,
            statements: (lines.len() - indexes.len()) as u64,
        });
    }
    None
}

/// The place of the first index that is not below the count.
fn first_over(indexes: &[u64], count: u64) -> Option<usize>
    ensures { result ≡ position (λ n. nat_le count n) indexes.now }
{
    indexes.iter().position(|index| *index >= count)
}
