//! The groups of related nodes of a call, one after another (RDF Dataset Canonicalization, 4.8.3,
//! steps 1 to 6).
ghost use Rattle.std.specs.Prelude.{◌≡◌, ◌<◌, ◌≤◌, ◌++◌, ℕ, List, OnOk, IfOk};
ghost use Rattle.rdfc_ndegree.specs.Table.{NodeRow};
ghost use Rattle.rdfc_ndegree.specs.declared.limits.Limits.{Limits};
ghost use Rattle.rdfc_ndegree.specs.Internal.Progress.{spending_of};
ghost use Rattle.rdfc_ndegree.specs.Internal.Frames.{Answers, CallStands, IsFit, Moves, Task, Waits, call_task, data_in, groups_left, setting};
ghost use Rattle.rdfc_ndegree.specs.Internal.Weights.{move_weight};

use crate::canonical::Canonical;
use crate::choice::Choice;
use crate::moves::{CallReply, CallState, Move, Question, Reply, Waiting, copy_of};
use crate::related::related_groups;
use crate::table::NodeTable;
use crate::temporary::Temporary;
use base_types::Memory;
use digest_mac::{Hash, HexDigest, digest_hex};
use std::alloc::Global;

/// Begins the call for a node: groups its related nodes. RDF Dataset Canonicalization, 4.8.3, steps
/// 1 to 4.
pub(crate) fn begin_call(
    alloc: Global,
    table: &NodeTable<'_, '_>,
    canonical: &Canonical,
    issuer: &Temporary,
    node: usize,
    hash: Hash,
) -> Result<Move, Memory>
    ensures ok { (limits : Limits) (spent : ℕ)
        → let s = setting hash table.now canonical.now limits in
        let task = call_task node issuer.now spent in
        IsFit s task → IfOk result (Moves s task issuer.now spent) }
    ensures lessens { (most : ℕ) → IfOk result (λ next. move_weight most next < 2) }
{
    let groups = related_groups(alloc, table, canonical, issuer, node, hash)?;
    next_group(
        CallState {
            groups,
            at: 0,
            text: Vec::new(alloc),
            tie: false,
        },
        hash,
    )
}

/// Goes on with a call after the choice in the group of this hash. RDF Dataset Canonicalization,
/// 4.8.3, steps 5.1, 5.5 and 5.6.
pub(crate) fn resume_call(
    state: CallState,
    group_hash: HexDigest,
    given: Choice,
    hash: Hash,
) -> Result<Move, Memory>
    ensures ok { (rows : List NodeRow) (c : List ℕ) (limits : Limits) (now : List ℕ) (spent : ℕ)
        (whole part : Task) → let s = setting hash rows c limits in
        Waits s (Waiting.Call state group_hash) whole part
        → Answers s part (Reply.Choice given) now spent
        → IfOk result (Moves s whole now spent) }
    ensures lessens { (most : ℕ) → IfOk result (λ next. move_weight most next < 2) }
{
    let CallState {
        groups,
        at,
        mut text,
        mut tie,
    } = state;
    push_choice(&mut text, group_hash, given.path.as_slice())?;
    tie |= given.tie;
    next_group(
        CallState {
            groups,
            at,
            text,
            tie,
        },
        hash,
    )
}

/// Asks for the choice in the next group, or gives the hash where none is left. Contracts name the
/// issuer that was chosen last, `now`.
fn next_group(state: CallState, hash: Hash) -> Result<Move, Memory>
    ensures ok { (rows : List NodeRow) (c : List ℕ) (limits : Limits) (n : ℕ) (i now : List ℕ)
        (before spent : ℕ) → let s = setting hash rows c limits in
        CallStands s n i (data_in state now) (groups_left state) (spending_of before spent)
        → IfOk result (Moves s (call_task n i before) now spent) }
    ensures lessens { (most : ℕ) → IfOk result (λ next. move_weight most next < 2) }
{
    let CallState {
        groups,
        at,
        text,
        tie,
    } = state;
    if at >= groups.len() {
        let digest = digest_hex(hash, text.as_slice());
        return Ok(Move::Gives(Reply::Call(CallReply { hash: digest, tie })));
    }
    let group = &groups[at];
    let group_hash = group.hash;
    let question = Question::Choice(copy_of(&group.members)?);
    let state = CallState {
        groups,
        at: at + 1,
        text,
        tie,
    };
    Ok(Move::Waits(Waiting::Call(state, group_hash), question))
}

/// The group's hash and the chosen path go to the data. RDF Dataset Canonicalization, 4.8.3, steps
/// 5.1 and 5.5.
fn push_choice(text: &mut Vec<u8>, hash: HexDigest, path: &[u8]) -> Result<(), Memory>
    ensures { OnOk result (text.new.items ≡ text.old.items ++ (hash ++ path.now)) }
{
    text.extend_from_slice(hash.as_str().as_bytes())?;
    text.extend_from_slice(path)?;
    Ok(())
}
