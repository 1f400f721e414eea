//! The three commands: each reads a request and says what is replied.

ghost use Rattle.std.specs.Prelude.{◌≡◌, ◌≤◌, true};
ghost use Rattle.json_tree.specs.declared.tree.Tree.{Tree as AnyTree};
ghost use Rattle.json_tree.specs.Trees.{is_in_range, is_lawful};
ghost use Rattle.key_device.specs.Devices.{MeansSame};
ghost use Rattle.vc_session.specs.Answers.{AnswersRequest, HasSoundReply, IssueAnswers, Keeps, Signs, StatementsAnswers, VerifyAnswers};
ghost use Rattle.vc_session.specs.Internal.Drafts.{IsObject, IsPrintable};
ghost use Rattle.vc_session.specs.Internal.Outcomes.{IsIssuedReply, IsRejectedReply, IsReply, IsSoundReply, IsUnissuedReply, IsUnknownReply, IsUnverifiedReply, IsVerifiedReply, SignsFor};
ghost use Rattle.vc_session.specs.Internal.Tasks.{IsIssueTask, IsVerifyTask};

use crate::input::request;
use crate::issuing::{self, IssueFault, IssuedDocument};
use crate::reply::Reply;
use crate::reply_lines;
use crate::requests::{issue_task, verify_task};
use crate::tasks::{IssueTask, VerifyTask};
use crate::verifying::{self, AcceptedProof, Verdict, VerifyFault};
use json_tree::Tree;
use key_device::KeyDevice;
use ld_rdf::FlatFault;
use nquads::{Memory, Sequence, Text};
use std::alloc::Global;
use stmt_groups::Cause;
use vc_io::Source;

/// Reads a request to its end, and replies with the canonical N-Quads of its document.
#[tactic(auto, using(crate::proofs::OutcomeReplies::statement_steps))]
pub fn statements<S: Source>(alloc: Global, source: &mut S) -> Reply
    ensures { AnswersRequest StatementsAnswers (S.means source.old) (S.means source.new) result }
{
    match request(alloc, source) {
        Ok(request) => statements_of(alloc, request),
        Err(reply) => reply,
    }
}

/// The statements of the request's document.
fn statements_of(alloc: Global, request: Tree) -> Reply
    requires { is_lawful request ≡ true }
    ensures { IsReply (StatementsAnswers request) result }
{
    let lines = match ld_rdf::flat_lines(alloc, &request) {
        Ok(lines) => lines,
        Err(FlatFault::NotBuilt) => return Reply::NotBuilt,
        Err(FlatFault::Memory) => return Reply::Memory,
    };
    // The request makes room for the text.
    drop(request);
    match nquads::join(alloc, lines.as_slice()) {
        Ok(text) => Reply::Statements(Sequence::from_vec(text)),
        Err(Memory) => Reply::Memory,
    }
}

/// Reads a request to its end, and replies with its document, secured with a base proof in which every
/// statement is mandatory. Where it is refused nothing is signed; only where memory ran out a document may
/// have been issued, and its reply be missing.
#[tactic(auto, using(crate::proofs::OutcomeReplies::issue_steps))]
pub fn issue<S: Source, D: KeyDevice>(alloc: Global, source: &mut S, device: &mut D) -> Reply
    ensures answer { AnswersRequest (IssueAnswers (D.means device.old) (D.means device.new))
        (S.means source.old) (S.means source.new) result }
    ensures signs { Signs (S.means source.old) (D.means device.old) (D.means device.new) result }
    ensures keeps { Keeps (D.means device.old) (D.means device.new) }
{
    match request(alloc, source) {
        Ok(request) => issue_request(alloc, request, device),
        Err(reply) => reply,
    }
}

#[tactic(auto, using(crate::proofs::OutcomeReplies::issue_steps))]
fn issue_request<D: KeyDevice>(alloc: Global, request: Tree, device: &mut D) -> Reply
    requires lawful { is_lawful request ≡ true }
    requires in_range { is_in_range request ≡ true }
    ensures answer { IsReply
        (IssueAnswers (D.means device.old) (D.means device.new) request) result }
    ensures signs { SignsFor request (D.means device.old) (D.means device.new) result }
    ensures keeps { Keeps (D.means device.old) (D.means device.new) }
{
    match issue_task(alloc, request) {
        Ok(task) => secure(alloc, task, device),
        Err(FlatFault::NotBuilt) => Reply::NotBuilt,
        Err(FlatFault::Memory) => Reply::Memory,
    }
}

/// Issues a base proof, and says so.
#[tactic(auto, using(crate::proofs::OutcomeReplies::issue_steps))]
fn secure<D: KeyDevice>(alloc: Global, task: IssueTask, device: &mut D) -> Reply
    requires task { (r : AnyTree) × IsIssueTask r task }
    requires document { IsObject task.document × IsPrintable task.document }
    requires options { IsObject task.options × IsPrintable task.options }
    ensures answer { (r : AnyTree) → IsIssueTask r task
        → IsReply (IssueAnswers (D.means device.old) (D.means device.new) r) result }
    ensures signs { (r : AnyTree) → IsIssueTask r task
        → SignsFor r (D.means device.old) (D.means device.new) result }
    ensures keeps { Keeps (D.means device.old) (D.means device.new) }
{
    match issuing::issue(alloc, task, device) {
        Ok(made) => issued_reply(alloc, made),
        Err(fault) => unissued_reply(alloc, fault),
    }
}

/// The line of an issued document.
fn issued_reply(alloc: Global, made: IssuedDocument) -> Reply
    requires { IsPrintable made.document }
    ensures { IsIssuedReply made result }
{
    match reply_lines::issued_line(alloc, made.document, made.statements, made.statements) {
        Ok(line) => Reply::Document(line),
        Err(Memory) => Reply::Memory,
    }
}

/// Why nothing was issued.
fn unissued_reply(alloc: Global, fault: IssueFault) -> Reply
    ensures { IsUnissuedReply fault result }
{
    match fault {
        IssueFault::NoStatements => Reply::NoStatements,
        IssueFault::UnknownMethod(method) => unknown_method(alloc, &method),
        IssueFault::Device => Reply::DeviceFault,
        IssueFault::NoKey(key) => match reply_lines::no_key_line(alloc, &key) {
            Ok(line) => Reply::NoKey(line),
            Err(Memory) => Reply::Memory,
        },
        IssueFault::Memory => Reply::Memory,
    }
}

/// That the key table has no key for a method.
fn unknown_method(alloc: Global, method: &Text) -> Reply
    ensures { IsUnknownReply method.now result }
{
    match reply_lines::unknown_method_line(alloc, method) {
        Ok(line) => Reply::UnknownMethod(line),
        Err(Memory) => Reply::Memory,
    }
}

/// Reads a request to its end, and replies whether its derived proof verifies, or why not. Of the device
/// nothing changes but its next secret and its count of faults.
#[tactic(auto, using(crate::proofs::OutcomeReplies::verify_steps))]
pub fn verify<S: Source, D: KeyDevice>(alloc: Global, source: &mut S, device: &mut D) -> Reply
    ensures answer { AnswersRequest (VerifyAnswers (D.means device.old) (D.means device.new))
        (S.means source.old) (S.means source.new) result }
    ensures sound { HasSoundReply (S.means source.old) (D.means device.old).accepts result }
    ensures stays { MeansSame (D.means device.old) (D.means device.new) }
    ensures count { (D.means device.old).faults ≤ (D.means device.new).faults }
{
    match request(alloc, source) {
        Ok(request) => verify_request(alloc, &request, device),
        Err(reply) => reply,
    }
}

#[tactic(auto, using(crate::proofs::OutcomeReplies::verify_steps))]
fn verify_request<D: KeyDevice>(alloc: Global, request: &Tree, device: &mut D) -> Reply
    requires { is_lawful request.now ≡ true }
    ensures answer { IsReply
        (VerifyAnswers (D.means device.old) (D.means device.new) request.now) result }
    ensures sound { IsSoundReply request.now (D.means device.old).accepts result }
    ensures stays { MeansSame (D.means device.old) (D.means device.new) }
    ensures count { (D.means device.old).faults ≤ (D.means device.new).faults }
{
    match verify_task(alloc, request) {
        Ok(task) => check(alloc, task, device),
        Err(FlatFault::NotBuilt) => Reply::NotBuilt,
        Err(FlatFault::Memory) => Reply::Memory,
    }
}

/// Checks a derived proof, and says the verdict.
#[tactic(auto, using(crate::proofs::OutcomeReplies::verify_steps))]
fn check<D: KeyDevice>(alloc: Global, task: VerifyTask, device: &mut D) -> Reply
    requires { (r : AnyTree) × IsVerifyTask r task }
    ensures answer { (r : AnyTree) → IsVerifyTask r task
        → IsReply (VerifyAnswers (D.means device.old) (D.means device.new) r) result }
    ensures sound { (r : AnyTree) → IsVerifyTask r task
        → IsSoundReply r (D.means device.old).accepts result }
    ensures stays { MeansSame (D.means device.old) (D.means device.new) }
    ensures count { (D.means device.old).faults ≤ (D.means device.new).faults }
{
    match verifying::verify(alloc, task, device) {
        Ok(Verdict::Yes(accepted)) => verified_reply(alloc, &accepted),
        Ok(Verdict::No(cause)) => rejected_reply(alloc, &cause),
        Err(fault) => unverified_reply(alloc, fault),
    }
}

/// The line of a yes.
fn verified_reply(alloc: Global, accepted: &AcceptedProof) -> Reply
    ensures { IsVerifiedReply accepted.now result }
{
    match reply_lines::verified_line(
        alloc,
        &accepted.issuer,
        &accepted.mandatory,
        &accepted.key,
        accepted.statements,
    ) {
        Ok(line) => Reply::Yes(line),
        Err(Memory) => Reply::Memory,
    }
}

/// The line of a no.
fn rejected_reply(alloc: Global, cause: &Cause) -> Reply
    ensures { IsRejectedReply cause.now result }
{
    match reply_lines::rejected_line(alloc, cause) {
        Ok(line) => Reply::No(line),
        Err(Memory) => Reply::Memory,
    }
}

/// Why there is no verdict.
fn unverified_reply(alloc: Global, fault: VerifyFault) -> Reply
    ensures { IsUnverifiedReply fault result }
{
    match fault {
        VerifyFault::NotBuilt => Reply::NotBuilt,
        VerifyFault::Value(fault) => match reply_lines::proof_value_line(alloc, fault) {
            Ok(line) => Reply::ProofValue(line),
            Err(Memory) => Reply::Memory,
        },
        VerifyFault::UnknownMethod(method) => unknown_method(alloc, &method),
        VerifyFault::Device => Reply::DeviceFault,
        VerifyFault::Memory => Reply::Memory,
    }
}
