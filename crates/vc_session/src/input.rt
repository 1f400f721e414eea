//! Reading a request.

ghost use Rattle.std.specs.Prelude.{◌≡◌, ℕ, List, IfOk, Err};
ghost use Rattle.json_tree.specs.declared.tree.TreeFault.TheVariants as fault;
ghost use Rattle.json_tree.specs.Places.{pointer_of};
ghost use Rattle.json_tree.specs.Reads.{Reads};
ghost use Rattle.vc_session.specs.ReplyTrees.{line_of, not_whole_tree};
ghost use Rattle.vc_session.specs.Internal.Outcomes.{IsInputRead, IsTreeRead, IsNoTree};

use crate::reply::Reply;
use crate::reply_lines;
use json_tree::{Place, Tree, TreeFault};
use nquads::{Memory, Sequence};
use std::alloc::Global;
use vc_io::{ReadAllFault, Source};

/// The most bytes that are read.
const INPUT_LIMIT: u64 = 8_388_608;

/// Reads a request to its end. Where there is none that can be answered, the reply says why.
pub(crate) fn request<S: Source>(alloc: Global, source: &mut S) -> Result<Tree, Reply>
    ensures { IsInputRead (S.means source.old) (S.means source.new) result }
{
    match vc_io::read_all(alloc, source, INPUT_LIMIT) {
        Ok(bytes) => tree_of(alloc, bytes.as_slice()),
        Err(ReadAllFault::TooLong(_)) => Err(Reply::TooLong),
        Err(ReadAllFault::Failed) => Err(Reply::ReadFault),
        Err(ReadAllFault::Memory) => Err(Reply::Memory),
    }
}

/// The tree of bytes that were read whole.
fn tree_of(alloc: Global, bytes: &[u8]) -> Result<Tree, Reply>
    ensures { IsTreeRead bytes.now result }
{
    match json_tree::read(alloc, bytes) {
        Ok(request) => Ok(request),
        Err(TreeFault::NotJson) => Err(Reply::NotJson),
        Err(TreeFault::TooDeep) => Err(Reply::TreeTooDeep),
        Err(TreeFault::NotWhole(place)) => Err(not_whole(alloc, &place)),
        Err(TreeFault::Memory) => Err(Reply::Memory),
    }
}

/// The refusal of a number that is not whole.
fn not_whole(alloc: Global, place: &Place) -> Reply
    ensures { (bytes : List ℕ) → Reads bytes (Err (fault.NotWhole place.now))
        → IsNoTree bytes result }
{
    match place_line(alloc, place) {
        Ok(line) => Reply::NotWhole(line),
        Err(Memory) => Reply::Memory,
    }
}

/// The line of that refusal: the place is written as its JSON Pointer.
fn place_line(alloc: Global, place: &Place) -> Result<Sequence<u8>, Memory>
    ensures { IfOk result (λ line. line ≡ line_of (not_whole_tree (pointer_of place.now.steps))) }
{
    let pointer = json_tree::pointer_text(alloc, place)?;
    reply_lines::not_whole_line(alloc, &pointer)
}
