//! The choice among the arrangements of a group (RDF Dataset Canonicalization, 4.8.3, step 5.4).
ghost use Rattle.std.specs.Prelude.{◌≡◌, ◌||◌, ℕ, List, [], ◌∷◌, ◌++◌, OnOk, is_some, nat_lt};
ghost use Rattle.rdfc_ndegree.specs.NDegree.{Trail};
ghost use Rattle.rdfc_ndegree.specs.Internal.Evaluations.{IsBestOf, IsFirstTie, IsPlaceOf, IsWithin, kept_tie, shorter};

use base_types::{Memory, Sequence};
use std::alloc::Global;
use std::cmp::Ordering;

/// What one arrangement gave: its path, and how long the path was before the first nested call that
/// met a tie.
#[derive(Debug, Drop)]
pub(crate) struct Evaluation {
    pub path: Sequence<u8>,
    pub tie: Option<usize>,
}

/// What is chosen in a group: the least path, and whether a tie was met that counts.
#[derive(Debug, Drop)]
pub(crate) struct Choice {
    pub path: Sequence<u8>,
    pub tie: bool,
}

/// The best of the arrangements so far: the least path, what the first that gave it has named, how
/// many gave it, and the length of the shortest beginning of it that is the path before a tied
/// nested call of any of them. Longer ones, and those that do not begin it, can never decide, since
/// the texts with one beginning stand together in order. None gave it before the first arrangement.
#[derive(Debug, Drop)]
pub(crate) struct Best {
    pub path: Sequence<u8>,
    pub named: Sequence<usize>,
    pub sharing: u64,
    pub tie: Option<usize>,
}

impl Best {
    pub fn new(alloc: Global) -> Best
        ensures { (i : List ℕ) → IsBestOf {B = ℕ} []
            result.path (i ++ result.named) result.sharing result.tie }
    {
        Best {
            path: Sequence::new(alloc),
            named: Sequence::new(alloc),
            sharing: 0,
            tie: None,
        }
    }

    /// Takes what one more arrangement gave, which has named `named` after what each begins with.
    pub fn take(
        &mut self,
        alloc: Global,
        evaluation: Evaluation,
        named: &[usize],
    ) -> Result<(), Memory>
        ensures { (i : List ℕ) → OnOk result ((ts : List (Trail ℕ)) (t : Trail ℕ)
            → IsBestOf ts self.old.path (i ++ self.old.named) self.old.sharing self.old.tie
            → evaluation.path ≡ t.path → i ++ named.now ≡ t.issuer
            → IsFirstTie t.path t.ties evaluation.tie
            → IsBestOf (ts ++ t ∷ [])
            self.new.path (i ++ self.new.named) self.new.sharing self.new.tie) }
    {
        let Evaluation { path, tie } = evaluation;
        match self.order_of(path.as_slice()) {
            Ordering::Less => {
                let kept = kept_tie(path.as_slice(), self.path.as_slice(), self.tie);
                self.named = Sequence::from_vec(named.to_vec(alloc)?);
                self.path = path;
                self.sharing = 1;
                self.tie = shorter(kept, tie);
            }
            Ordering::Equal => {
                self.sharing = self.sharing.saturating_add(1);
                self.tie = shorter(self.tie, tie);
            }
            Ordering::Greater => {
                let kept = kept_tie(self.path.as_slice(), path.as_slice(), tie);
                self.tie = shorter(self.tie, kept);
            }
        }
        Ok(())
    }

    /// How a path stands to the least so far. The first one comes before it.
    fn order_of(&self, path: &[u8]) -> Ordering
        ensures { IsPlaceOf self.now.path self.now.sharing path.now result }
    {
        if self.sharing == 0 {
            return Ordering::Less;
        }
        path.cmp(self.path.as_slice())
    }

    /// The choice, when every arrangement was taken. A tie was met that counts where two gave the
    /// least path, or where the path before a tied nested call begins it.
    pub fn into_choice(self) -> Choice
        ensures path { result.path ≡ self.path }
        ensures tie { result.tie ≡ (nat_lt 1 self.sharing || is_some self.tie) }
    {
        let tie = self.sharing > 1 || self.tie.is_some();
        Choice {
            path: self.path,
            tie,
        }
    }
}

/// A tie of a path, if the path before it begins the least one too.
fn kept_tie(least: &[u8], path: &[u8], tie: Option<usize>) -> Option<usize>
    ensures { IsWithin path.now tie → result ≡ kept_tie least.now path.now tie }
{
    let length = tie?;
    if length <= path.len() && least.starts_with(&path[..length]) {
        return Some(length);
    }
    None
}

/// The shorter of two lengths.
fn shorter(a: Option<usize>, b: Option<usize>) -> Option<usize>
    ensures { result ≡ shorter a b }
{
    match a {
        None => b,
        Some(length) => match b {
            None => Some(length),
            Some(other) => Some(length.min(other)),
        },
    }
}
