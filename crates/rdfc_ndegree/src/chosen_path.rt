//! The arrangements of a group, one after another, and the chosen path (RDF Dataset
//! Canonicalization, 4.8.3, step 5.4).
ghost use Rattle.std.specs.Prelude.{◌≡◌, ◌<◌, ◌≤◌, ◌+◌, ◌-◌, ◌*◌, ℕ, List, length, OnOk, IfOk, IfErr};
ghost use Rattle.digest_mac.specs.declared.hash.Hash.{Hash};
ghost use Rattle.rdfc_ndegree.specs.declared.limits.CanonFault.{CanonFault};
ghost use Rattle.rdfc_ndegree.specs.Table.{NodeRow, table_nodes};
ghost use Rattle.rdfc_ndegree.specs.Internal.Nodes.{AreNodes};
ghost use Rattle.rdfc_ndegree.specs.Internal.Progress.{spending_of};
ghost use Rattle.rdfc_ndegree.specs.Internal.Frames.{Answers, ChoiceStands, IsFit, IsTaskFault, Moves, Task, Waits, best_in, choice_task, setting};
ghost use Rattle.rdfc_ndegree.specs.Internal.Weights.{WeighsLess, choice_weight};

use crate::arrangements::Arrangements;
use crate::choice::{Best, Evaluation};
use crate::limits::{CanonFault, Meter};
use crate::moves::{ChoiceState, Move, Question, Reply, Waiting};
use crate::temporary::Temporary;
use std::alloc::Global;

/// Begins the choice in a group.
pub(crate) fn begin_choice(
    alloc: Global,
    members: &[usize],
    issuer: &mut Temporary,
    meter: &mut Meter,
) -> Result<Move, CanonFault>
    ensures limits { meter.new.limits ≡ meter.old.limits }
    ensures rises { meter.old.spent ≤ meter.new.spent }
    ensures kept { meter.old.spent ≤ meter.old.limits.work
        → IfOk result (λ _. meter.new.spent ≤ meter.old.limits.work) }
    ensures ok { (algorithm : Hash) (rows : List NodeRow) (c : List ℕ)
        → let s = setting algorithm rows c meter.old.limits in
        let task = choice_task issuer.old members.now meter.old.spent in
        IsFit s task → IfOk result (Moves s task issuer.new meter.new.spent) }
    ensures fault { (algorithm : Hash) (rows : List NodeRow) (c : List ℕ)
        → let s = setting algorithm rows c meter.old.limits in
        let task = choice_task issuer.old members.now meter.old.spent in
        AreNodes (table_nodes algorithm rows) → IsFit s task → IfErr result (IsTaskFault s task) }
    ensures lessens { (most : ℕ) → IfOk result (WeighsLess most 1 meter.old meter.new) }
{
    let left = Arrangements::new(alloc, members)?;
    let best = Best::new(alloc);
    let begun = issuer.len();
    next_arrangement(alloc, ChoiceState { begun, left, best }, issuer, meter)
}

/// Goes on with a choice after one more arrangement.
pub(crate) fn resume_choice(
    alloc: Global,
    state: ChoiceState,
    given: Evaluation,
    issuer: &mut Temporary,
    meter: &mut Meter,
) -> Result<Move, CanonFault>
    ensures limits { meter.new.limits ≡ meter.old.limits }
    ensures rises { meter.old.spent ≤ meter.new.spent }
    ensures kept { meter.old.spent ≤ meter.old.limits.work
        → IfOk result (λ _. meter.new.spent ≤ meter.old.limits.work) }
    ensures ok { (algorithm : Hash) (rows : List NodeRow) (c : List ℕ) (whole part : Task)
        → let s = setting algorithm rows c meter.old.limits in
        Waits s (Waiting.Choice state) whole part
        → Answers s part (Reply.Trail given) issuer.old meter.old.spent
        → IfOk result (Moves s whole issuer.new meter.new.spent) }
    ensures fault { (algorithm : Hash) (rows : List NodeRow) (c : List ℕ) (whole part : Task)
        → let s = setting algorithm rows c meter.old.limits in
        AreNodes (table_nodes algorithm rows) → Waits s (Waiting.Choice state) whole part
        → Answers s part (Reply.Trail given) issuer.old meter.old.spent
        → IfErr result (IsTaskFault s whole) }
    ensures lessens { (most : ℕ) → IfOk result (WeighsLess most 3 meter.old meter.new) }
{
    let ChoiceState {
        begun,
        left,
        mut best,
    } = state;
    best.take(alloc, given, issuer.after(begun))?;
    issuer.cut_back(begun);
    next_arrangement(alloc, ChoiceState { begun, left, best }, issuer, meter)
}

/// Counts the next arrangement and asks for its evaluation; where none is left it gives the choice,
/// and the issuer names again what the chosen arrangement has named.
fn next_arrangement(
    alloc: Global,
    state: ChoiceState,
    issuer: &mut Temporary,
    meter: &mut Meter,
) -> Result<Move, CanonFault>
    ensures limits { meter.new.limits ≡ meter.old.limits }
    ensures rises { meter.old.spent ≤ meter.new.spent }
    ensures kept { meter.old.spent ≤ meter.old.limits.work
        → IfOk result (λ _. meter.new.spent ≤ meter.old.limits.work) }
    ensures ok { (algorithm : Hash) (rows : List NodeRow) (c members : List ℕ) (before : ℕ)
        → let s = setting algorithm rows c meter.old.limits in
        state.begun ≡ length issuer.old
        → ChoiceStands s issuer.old members (best_in issuer.old state.best) state.left
        (spending_of before meter.old.spent)
        → IfOk result (Moves s (choice_task issuer.old members before)
        issuer.new meter.new.spent) }
    ensures fault { (algorithm : Hash) (rows : List NodeRow) (c members : List ℕ) (before : ℕ)
        → let s = setting algorithm rows c meter.old.limits in
        AreNodes (table_nodes algorithm rows)
        → ChoiceStands s issuer.old members (best_in issuer.old state.best) state.left
        (spending_of before meter.old.spent)
        → IfErr result (IsTaskFault s (choice_task issuer.old members before)) }
    ensures lessens { (most : ℕ)
        → IfOk result (WeighsLess most (choice_weight state.left) meter.old meter.new) }
{
    let ChoiceState {
        begun,
        mut left,
        best,
    } = state;
    let Some(arrangement) = left.next(alloc)? else {
        issuer.append_all(best.named.as_slice())?;
        return Ok(Move::Gives(Reply::Choice(best.into_choice())));
    };
    count_arrangement(meter)?;
    let state = ChoiceState { begun, left, best };
    Ok(Move::Waits(Waiting::Choice(state), Question::Trail(arrangement)))
}

/// Counts one arrangement, before it is begun.
fn count_arrangement(meter: &mut Meter) -> Result<(), CanonFault>
    ensures limits { meter.new.limits ≡ meter.old.limits }
    ensures rises { meter.old.spent ≤ meter.new.spent }
    ensures counted { OnOk result (
        (meter.new.spent ≡ meter.old.spent + 1) × (meter.old.spent < meter.old.limits.work)) }
    ensures full { IfErr result (λ e.
        (e ≡ CanonFault.TooMuchWork meter.old.limits.work)
        × (meter.old.limits.work ≤ meter.old.spent)) }
{
    if meter.spent >= meter.limits.work {
        return Err(CanonFault::TooMuchWork(meter.limits.work));
    }
    meter.spent += 1;
    Ok(())
}
