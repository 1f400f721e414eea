//! Look-up by a text key in a slice whose keys rise.

ghost use Rattle.std.specs.Prelude.{◌≡◌, ◌<◌, ◌≤◌, List, ℕ, true, length, find};
ghost use Rattle.std.specs.Result.{MatchResult};
ghost use Rattle.std.specs.List.{HoldsAt};
ghost use Rattle.std.specs.List.Sorted.{IsPartitionPoint};
ghost use Rattle.std.specs.declared.cmp.Ordering.TheVariants.{Less, Equal, Greater};
ghost use Rattle.std.specs.Option.{option_copied};
ghost use Rattle.std.specs.Ordering.{nat_cmp};
ghost use Rattle.std.specs.Cmp.Lexicographic.{slice_cmp};
ghost use Rattle.std.specs.Str.{bytes_eq};
ghost use Rattle.base_types.specs.Order.{is_before, each_next};

use crate::shared::Shared;
use std::cmp::Ordering;

/// What is kept under a text.
pub trait Keyed {
    ghost text: { Self → List ℕ };

    fn key(&self) -> &str
        ensures { result.now ≡ text self.now };
}

impl<T: Keyed> Keyed for Shared<T> {
    ghost text = { λ s. T.text s };

    fn key(&self) -> &str {
        self.get().key()
    }
}

/// The index of the entry of that key, or the index at which one would stand, found by halving.
pub fn search_by_key<T: Keyed>(entries: &[T], key: &str) -> Result<usize, usize>
    requires { each_next (λ x y. is_before (T.text x) (T.text y)) entries.now ≡ true }
    ensures { MatchResult result
        (λ at. (at < length entries.now)
        × HoldsAt (λ x. slice_cmp nat_cmp (T.text x) key.now ≡ Equal) entries.now at)
        (λ at. (at ≤ length entries.now)
        × IsPartitionPoint (λ x. slice_cmp nat_cmp (T.text x) key.now ≡ Less)
        (λ x. slice_cmp nat_cmp (T.text x) key.now ≡ Greater) entries.now at) }
{
    let against_key = |entry: &T| -> Ordering
        ensures { result ≡ slice_cmp nat_cmp (T.text entry.now) key.entry.now }
    { entry.key().cmp(key) };
    match entries.binary_search_by(against_key) {
        Ok(at) => Ok(at),
        Err(at) => Err(at),
    }
}

/// The entry of that key, found by halving.
pub fn find_by_key<'a, T: Keyed>(entries: &'a [T], key: &str) -> Option<&'a T>
    requires { each_next (λ x y. is_before (T.text x) (T.text y)) entries.now ≡ true }
    ensures { option_copied result ≡ find (λ x. bytes_eq (T.text x) key.now) entries.now }
{
    match search_by_key(entries, key) {
        Ok(at) => Some(&entries[at]),
        Err(_) => None,
    }
}
