//! The nested calls for the recursion list of an arrangement (RDF Dataset Canonicalization, 4.8.3,
//! steps 5.4.1 to 5.4.5).
ghost use Rattle.std.specs.Prelude.{◌≡◌, ◌<◌, ◌≤◌, ◌+◌, ◌*◌, ℕ, List, IfOk, length};
ghost use Rattle.digest_mac.specs.declared.hash.Hash.{Hash};
ghost use Rattle.rdfc_ndegree.specs.declared.limits.Limits.{Limits};
ghost use Rattle.rdfc_ndegree.specs.Table.{NodeRow, table_nodes};
ghost use Rattle.rdfc_ndegree.specs.Internal.Nodes.{AreListed, AreNodes};
ghost use Rattle.rdfc_ndegree.specs.Internal.Evaluations.{first_tie};
ghost use Rattle.rdfc_ndegree.specs.Internal.Progress.{spending_of};
ghost use Rattle.rdfc_ndegree.specs.Internal.Frames.{Answers, IsFit, Moves, Task, TrailStands, Waits, members_left, setting, trail_so_far, trail_task};
ghost use Rattle.rdfc_ndegree.specs.Internal.Weights.{arrangement_weight, move_weight, waiting_weight};

use crate::canonical::Canonical;
use crate::choice::Evaluation;
use crate::moves::{CallReply, Move, Question, Reply, TrailState, Waiting};
use crate::temporary::Temporary;
use crate::walk::{Walk, push_path_part, walk_over};
use base_types::{Memory, Sequence};
use std::alloc::Global;

/// Begins the evaluation of an arrangement: names its members in the issuer. RDF Dataset
/// Canonicalization, 4.8.3, steps 5.4.1 to 5.4.4.
pub(crate) fn begin_trail(
    alloc: Global,
    canonical: &Canonical,
    issuer: &mut Temporary,
    arrangement: &[usize],
) -> Result<Move, Memory>
    ensures ok { (algorithm : Hash) (rows : List NodeRow) (limits : Limits) (spent : ℕ)
        → let s = setting algorithm rows canonical.now limits in
        let task = trail_task issuer.old arrangement.now spent in
        IsFit s task → IfOk result (Moves s task issuer.new spent) }
    ensures lessens { (algorithm : Hash) (rows : List NodeRow) (most : ℕ)
        → AreNodes (table_nodes algorithm rows)
        → AreListed (table_nodes algorithm rows) arrangement.now
        → arrangement_weight rows ≤ most → IfOk result (λ next. move_weight most next < most) }
{
    let Walk {
        path,
        recursion_list,
    } = walk_over(alloc, canonical, issuer, arrangement)?;
    let state = TrailState {
        path: path.into_vec(),
        tie: None,
        members: recursion_list,
        at: 0,
    };
    Ok(next_member(state, issuer))
}

/// Goes on with an arrangement after the nested call of a member, whose temporary identifier has
/// this number. RDF Dataset Canonicalization, 4.8.3, steps 5.4.5.2 to 5.4.5.4.
pub(crate) fn resume_trail(
    state: TrailState,
    number: usize,
    given: CallReply,
    issuer: &Temporary,
) -> Result<Move, Memory>
    ensures ok { (algorithm : Hash) (rows : List NodeRow) (c : List ℕ) (limits : Limits) (spent : ℕ)
        (whole part : Task) → let s = setting algorithm rows c limits in
        Waits s (Waiting.Trail state number) whole part
        → Answers s part (Reply.Call given) issuer.now spent
        → IfOk result (Moves s whole issuer.now spent) }
    ensures lessens { (most : ℕ) → IfOk result (λ next.
        move_weight most next < waiting_weight (Waiting.Trail state number) + 1) }
{
    let TrailState {
        mut path,
        tie,
        members,
        at,
    } = state;
    let tie = first_tie(tie, given.tie, path.len());
    push_path_part(&mut path, number, given.hash)?;
    let state = TrailState {
        path,
        tie,
        members,
        at,
    };
    Ok(next_member(state, issuer))
}

/// Asks for the call of the next member, or gives what the arrangement gave where none is left.
fn next_member(state: TrailState, issuer: &Temporary) -> Move
    ensures ok { (algorithm : Hash) (rows : List NodeRow) (c : List ℕ) (limits : Limits)
        (i p : List ℕ) (before spent : ℕ) → let s = setting algorithm rows c limits in
        TrailStands s i p (trail_so_far state issuer.now) (members_left state)
        (spending_of before spent) → Moves s (trail_task i p before) issuer.now spent result }
    ensures lessens { (most : ℕ)
        → move_weight most result ≤ 3 * length (members_left state) + 3 }
{
    let TrailState {
        path,
        tie,
        members,
        at,
    } = state;
    let named = members.as_slice();
    if at >= named.len() {
        return Move::Gives(Reply::Trail(Evaluation {
            path: Sequence::from_vec(path),
            tie,
        }));
    }
    let member = named[at];
    let number = issuer.number(member).unwrap_or(issuer.len());
    let state = TrailState {
        path,
        tie,
        members,
        at: at + 1,
    };
    Move::Waits(Waiting::Trail(state, number), Question::Call(member))
}

/// The first tie after one more nested call, which was made when the path had this length.
fn first_tie(first: Option<usize>, tie: bool, length: usize) -> Option<usize>
    ensures { result ≡ first_tie first tie length }
{
    match first {
        Some(before) => Some(before),
        None => { if tie { Some(length) } else { None } }
    }
}
