//! What waits while n-degree hashing goes on deeper, what is asked and what is given (RDF Dataset
//! Canonicalization, 4.8.3).
ghost use Rattle.std.specs.Prelude.{◌≡◌, IfOk};

use crate::arrangements::Arrangements;
use crate::choice::{Best, Choice, Evaluation};
use crate::related::NodeGroup;
use base_types::{Memory, Sequence};
use digest_mac::HexDigest;

/// How far the groups of a call have come: the groups in hash order, of which those from `at` on
/// are left, the data to hash so far, and whether a group met a tie that counts.
#[derive(Debug, Drop)]
pub(crate) struct CallState {
    pub groups: Vec<NodeGroup>,
    pub at: usize,
    pub text: Vec<u8>,
    pub tie: bool,
}

/// How far the choice in a group has come: how many numbers the issuer has named where each
/// arrangement begins, the arrangements that are left, and the best of the others.
#[derive(Debug, Drop)]
pub(crate) struct ChoiceState {
    pub begun: usize,
    pub left: Arrangements,
    pub best: Best,
}

/// How far an arrangement has come: its path, how long the path was before the first nested call
/// that met a tie, and the recursion list, of which the members from `at` on are left.
#[derive(Debug, Drop)]
pub(crate) struct TrailState {
    pub path: Vec<u8>,
    pub tie: Option<usize>,
    pub members: Sequence<usize>,
    pub at: usize,
}

/// What waits: a call for the choice in the group of this hash, a choice for one arrangement, an
/// arrangement for the nested call of a member, whose temporary identifier has this number.
#[derive(Debug, Drop)]
pub(crate) enum Waiting {
    Call(CallState, HexDigest),
    Choice(ChoiceState),
    Trail(TrailState, usize),
}

/// What is asked: a call for a node, the choice among the arrangements of members, the evaluation
/// of one arrangement. Each begins with what the shared issuer has named then.
#[derive(Debug, Drop)]
pub(crate) enum Question {
    Call(usize),
    Choice(Sequence<usize>),
    Trail(Sequence<usize>),
}

/// What a call gives: the hash, and whether a tie was met that counts.
#[derive(Debug, Drop)]
pub(crate) struct CallReply {
    pub hash: HexDigest,
    pub tie: bool,
}

/// What is given to a question of the same kind, besides what the shared issuer has named then.
#[derive(Debug, Drop)]
pub(crate) enum Reply {
    Call(CallReply),
    Choice(Choice),
    Trail(Evaluation),
}

/// What a step comes to: something waits and asks, or a reply is given.
#[derive(Debug, Drop)]
pub(crate) enum Move {
    Waits(Waiting, Question),
    Gives(Reply),
}

/// A copy of the members of a group.
pub(crate) fn copy_of(numbers: &Sequence<usize>) -> Result<Sequence<usize>, Memory>
    ensures { IfOk result (λ copy. copy ≡ numbers.now) }
{
    Ok(numbers.clone()?)
}
