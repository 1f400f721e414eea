//! Hash N-Degree Quads on a stack of what waits (RDF Dataset Canonicalization, 4.8.3): however deep
//! the calls go, the program's own stack does not grow.
ghost use Rattle.std.specs.Prelude.{◌≡◌, ◌<◌, ◌≤◌, ◌+◌, true, ℕ, List, IfOk, IfErr, All, length};
ghost use Rattle.rdfc_ndegree.specs.Table.{NodeRow, table_nodes};
ghost use Rattle.rdfc_ndegree.specs.Answers.{AnswersCall, CallOver, answer, spending};
ghost use Rattle.rdfc_ndegree.specs.Internal.Nodes.{AreNodes};
ghost use Rattle.rdfc_ndegree.specs.Internal.Evaluations.{IsFaultOf};
ghost use Rattle.rdfc_ndegree.specs.Internal.Frames.{Answers, IsFit, IsTaskFault, Moves, Task, Waits, call_reply, is_call_reply, is_reply_to, setting, task_of};
ghost use Rattle.rdfc_ndegree.specs.Internal.Weights.{WeighsLess, arrangement_weight, question_weight, reply_weight, waiting_weight};

use crate::canonical::Canonical;
use crate::chosen_path::{begin_choice, resume_choice};
use crate::hash_groups::{begin_call, resume_call};
use crate::limits::{CanonFault, Meter};
use crate::moves::{Move, Question, Reply, Waiting};
use crate::nested_calls::{begin_trail, resume_trail};
use crate::path::NodePath;
use crate::table::NodeTable;
use crate::temporary::Temporary;
use base_types::Sequence;
use digest_mac::Hash;
use std::alloc::Global;

/// The call for one node. What waits for a nested call, for an arrangement or for the choice in a
/// group stands on a stack; the highest goes on when its reply is there. All of it shares one
/// issuer, which is cut back where an arrangement begins anew.
pub(crate) fn hash_on_stack(
    alloc: Global,
    table: &NodeTable<'_, '_>,
    canonical: &Canonical,
    node: usize,
    issuer: Sequence<usize>,
    hash: Hash,
    meter: &mut Meter,
) -> Result<NodePath, CanonFault>
    requires nodes { AreNodes (table_nodes hash table.now) }
    requires node { node < length table.now }
    requires issuer { All (λ k. k < length table.now) issuer }
    ensures limits { meter.new.limits ≡ meter.old.limits }
    ensures rises { meter.old.spent ≤ meter.new.spent }
    ensures kept { meter.old.spent ≤ meter.old.limits.work
        → IfOk result (λ _. meter.new.spent ≤ meter.old.limits.work) }
    ensures inside { IfOk result (λ p. All (λ k. k < length table.now) p.issuer) }
    ensures ok { IfOk result (λ p.
        AnswersCall (table_nodes hash table.now) canonical.now node issuer
        (answer p.hash p.issuer p.tie) (spending meter.old meter.new)) }
    ensures fault { IfErr result (IsFaultOf meter.old.limits
        (CallOver (table_nodes hash table.now) canonical.now node issuer meter.old.spent)) }
{
    let mut shared = Temporary::new(alloc);
    shared.append_all(issuer.as_slice())?;
    let mut stack = Sequence::new(alloc);
    let mut next = begin_call(alloc, table, canonical, &shared, node, hash)?;
    loop {
        match next {
            Move::Waits(waiting, question) => {
                stack.push(waiting)?;
                next = begin(alloc, table, canonical, question, &mut shared, hash, meter)?;
            }
            Move::Gives(given) => {
                let Some(waiting) = stack.pop() else {
                    return Ok(path_of(given, shared));
                };
                next = resume(alloc, waiting, given, &mut shared, hash, meter)?;
            }
        }
    }
}

/// What a call gives, with what the issuer has named then.
fn path_of(given: Reply, issuer: Temporary) -> NodePath
    requires { is_call_reply given ≡ true }
    ensures reply { given ≡ Reply.Call (call_reply result.hash result.tie) }
    ensures issuer { result.issuer ≡ issuer }
{
    match given {
        Reply::Call(reply) => NodePath {
            hash: reply.hash,
            issuer: issuer.into_order(),
            tie: reply.tie,
        },
        Reply::Choice(_) | Reply::Trail(_) => unreachable!(),
    }
}

/// Begins what is asked.
fn begin(
    alloc: Global,
    table: &NodeTable<'_, '_>,
    canonical: &Canonical,
    question: Question,
    issuer: &mut Temporary,
    hash: Hash,
    meter: &mut Meter,
) -> Result<Move, CanonFault>
    requires nodes { AreNodes (table_nodes hash table.now) }
    requires fit { IsFit (setting hash table.now canonical.now meter.old.limits)
        (task_of question issuer.old meter.old.spent) }
    ensures limits { meter.new.limits ≡ meter.old.limits }
    ensures rises { meter.old.spent ≤ meter.new.spent }
    ensures kept { meter.old.spent ≤ meter.old.limits.work
        → IfOk result (λ _. meter.new.spent ≤ meter.old.limits.work) }
    ensures ok { IfOk result (Moves (setting hash table.now canonical.now meter.old.limits)
        (task_of question issuer.old meter.old.spent) issuer.new meter.new.spent) }
    ensures fault { IfErr result (IsTaskFault
        (setting hash table.now canonical.now meter.old.limits)
        (task_of question issuer.old meter.old.spent)) }
    ensures lessens { (most : ℕ) → arrangement_weight table.now ≤ most
        → IfOk result (WeighsLess most (question_weight most question) meter.old meter.new) }
{
    match question {
        Question::Call(node) => Ok(begin_call(alloc, table, canonical, issuer, node, hash)?),
        Question::Choice(members) => begin_choice(alloc, members.as_slice(), issuer, meter),
        Question::Trail(arrangement) => {
            Ok(begin_trail(alloc, canonical, issuer, arrangement.as_slice())?)
        }
    }
}

/// Goes on with what waited, when its reply is there.
fn resume(
    alloc: Global,
    waiting: Waiting,
    given: Reply,
    issuer: &mut Temporary,
    hash: Hash,
    meter: &mut Meter,
) -> Result<Move, CanonFault>
    requires { is_reply_to waiting given ≡ true }
    ensures limits { meter.new.limits ≡ meter.old.limits }
    ensures rises { meter.old.spent ≤ meter.new.spent }
    ensures kept { meter.old.spent ≤ meter.old.limits.work
        → IfOk result (λ _. meter.new.spent ≤ meter.old.limits.work) }
    ensures ok { (rows : List NodeRow) (c : List ℕ) (whole part : Task)
        → let s = setting hash rows c meter.old.limits in
        Waits s waiting whole part → Answers s part given issuer.old meter.old.spent
        → IfOk result (Moves s whole issuer.new meter.new.spent) }
    ensures fault { (rows : List NodeRow) (c : List ℕ) (whole part : Task)
        → let s = setting hash rows c meter.old.limits in
        AreNodes (table_nodes hash rows) → Waits s waiting whole part
        → Answers s part given issuer.old meter.old.spent
        → IfErr result (IsTaskFault s whole) }
    ensures lessens { (most : ℕ) → IfOk result
        (WeighsLess most (waiting_weight waiting + reply_weight given) meter.old meter.new) }
{
    match (waiting, given) {
        (Waiting::Call(state, group_hash), Reply::Choice(choice)) => {
            Ok(resume_call(state, group_hash, choice, hash)?)
        }
        (Waiting::Choice(state), Reply::Trail(evaluation)) => {
            resume_choice(alloc, state, evaluation, issuer, meter)
        }
        (Waiting::Trail(state, number), Reply::Call(reply)) => {
            Ok(resume_trail(state, number, reply, issuer)?)
        }
        _ => unreachable!(),
    }
}
