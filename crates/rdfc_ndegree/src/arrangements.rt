//! The arrangements of a group, one after another (RDF Dataset Canonicalization, 4.8.3, step 5.4).
ghost use Rattle.std.specs.Prelude.{◌≡◌, ◌∷◌, [], IfOk, IfSome, IsNone, OnErr, IsPermutation};
ghost use Rattle.rdfc_ndegree.specs.NDegree.{AreArrangements};
ghost use Rattle.rdfc_ndegree.specs.Internal.Sequences.{Advances, IsPivot, IsLastAbove};

use base_types::{Memory, Sequence};
use std::alloc::Global;
use std::marker::Model;

/// The distinct sequences of a group's members in lexicographic order, one at a time. Contracts see
/// those that are left.
#[derive(Debug, Drop)]
pub struct Arrangements {
    next: Vec<usize>,
    is_over: bool,
}

impl Model for Arrangements {
    ghost use Rattle.std.specs.Prelude.{List, ℕ};
    ghost use Rattle.rdfc_ndegree.specs.Sequences.{left_from};

    ghost Value = { List (List ℕ) };

    ghost view = { λ a. left_from a.is_over a.next.items };
}

impl Arrangements {
    /// All the arrangements of `members`.
    ///
    /// # Errors
    ///
    /// `Memory`: there is no memory for a copy of the members.
    pub fn new(alloc: Global, members: &[usize]) -> Result<Arrangements, Memory>
        ensures { IfOk result (λ left. AreArrangements members.now left) }
    {
        let mut next = members.to_vec(alloc)?;
        next.sort_unstable();
        Ok(Arrangements {
            next,
            is_over: false,
        })
    }

    /// The next arrangement, or `None` where none is left.
    ///
    /// # Errors
    ///
    /// `Memory`: there is no memory for the arrangement. Those that are left are as before.
    pub fn next(&mut self, alloc: Global) -> Result<Option<Sequence<usize>>, Memory>
        ensures some { IfOk result (λ o. IfSome o (λ p. self.old ≡ p ∷ self.new)) }
        ensures none { IfOk result (λ o. IsNone o → (self.old ≡ []) × (self.new ≡ [])) }
        ensures err { OnErr result (self.new ≡ self.old) }
    {
        if self.is_over {
            return Ok(None);
        }
        let arrangement = self.next.as_slice().to_vec(alloc)?;
        self.is_over = !advance(self.next.as_mut_slice());
        Ok(Some(Sequence::from_vec(arrangement)))
    }
}

/// Steps to the next sequence of the same numbers in lexicographic order. `false`: this is the last
/// one.
fn advance(numbers: &mut [usize]) -> bool
    ensures { Advances numbers.old numbers.new result }
{
    let Some(pivot) = pivot_of(numbers) else {
        return false;
    };
    let above = last_above(numbers, pivot);
    numbers.swap(pivot, above);
    numbers[pivot + 1..].reverse();
    true
}

/// The last place whose number is below the next one.
#[tactic(auto, using(crate::proofs::Pivots::pivots))]
fn pivot_of(numbers: &[usize]) -> Option<usize>
    ensures { IsPivot numbers.now result }
{
    let mut end = numbers.len();
    while end > 1 {
        if numbers[end - 2] < numbers[end - 1] {
            return Some(end - 2);
        }
        end -= 1;
    }
    None
}

/// The last place after `pivot` whose number is above that at `pivot`. The number at the place
/// after `pivot` is.
#[tactic(auto, using(crate::proofs::Pivots::lasts))]
fn last_above(numbers: &[usize], pivot: usize) -> usize
    requires { IsPivot numbers.now (Some pivot) }
    ensures { IsLastAbove numbers.now pivot result }
{
    let mut above = numbers.len() - 1;
    while numbers[above] <= numbers[pivot] {
        above -= 1;
    }
    above
}
