//! The order of an object's members: that of their names' UTF-16 code units. RFC 8785, 3.2.3.

ghost use Rattle.std.specs.Prelude.{◌≡◌, ◌<◌, ℕ, Some, map, length, slice_get, All, IfOk};
ghost use Rattle.std.specs.Cmp.Lexicographic.{slice_cmp};
ghost use Rattle.std.specs.List.{range_with_len};
ghost use Rattle.std.specs.Ordering.{nat_cmp};
ghost use Rattle.jcs_text.specs.Canonical.{code_units, in_name_order};
ghost use Rattle.jcs_text.specs.Internal.Naming.{name_at};

use base_types::Memory;
use json_tree::Member;
use std::alloc::Global;
use std::cmp::Ordering;

/// The indexes of members, in the order of the members' names. Of one name the first stays first.
pub(crate) fn name_order(alloc: Global, members: &[Member]) -> Result<Vec<usize>, Memory>
    ensures within { IfOk result (λ order. All (λ at. at < length members.now) order.items) }
    ensures order { IfOk result (λ order. map (slice_get members.now) order.items
        ≡ map Some (in_name_order (λ m. m.key) members.now)) }
{
    let mut order = indexes(alloc, members.len())?;
    let by_name = |a: &usize, b: &usize| -> Ordering
        ensures { result ≡ slice_cmp nat_cmp (code_units (name_at members.entry.now a.now))
            (code_units (name_at members.entry.now b.now)) }
    { compare_names(name_at(members, *a), name_at(members, *b)) };
    order.sort_by(by_name)?;
    Ok(order)
}

/// The numbers below `count`, in their order.
fn indexes(alloc: Global, count: usize) -> Result<Vec<usize>, Memory>
    ensures { IfOk result (λ all. all.items ≡ range_with_len 0 count) }
{
    let mut all = Vec::with_capacity(alloc, count)?;
    for at in 0..count {
        all.push(at)?;
    }
    Ok(all)
}

/// The name of the member at that index, and the empty text past the last.
fn name_at(members: &[Member], at: usize) -> &str
    ensures { result.now ≡ name_at members.now at }
{
    match members.get(at) {
        Some(member) => member.key.as_str(),
        None => "",
    }
}

/// How two names compare by their UTF-16 code units. It takes no memory.
#[tactic(auto, using(crate::proofs::Units::unit_steps))]
fn compare_names(a: &str, b: &str) -> Ordering
    ensures { result ≡ slice_cmp nat_cmp (code_units a.now) (code_units b.now) }
{
    let mut others = b.encode_utf16();
    for unit in a.encode_utf16() {
        match others.next() {
            Some(other) => {
                if unit != other {
                    return unit.cmp(&other);
                }
            }
            None => return Ordering::Greater,
        }
    }
    match others.next() {
        Some(_) => Ordering::Less,
        None => Ordering::Equal,
    }
}
