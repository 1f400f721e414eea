//! The temporary issuer that the calls on a stack share (RDF Dataset Canonicalization, 4.3 and 4.5).
ghost use Rattle.std.specs.Prelude.{◌≡◌, ◌≤◌, ◌++◌, ◌∷◌, [], length, take, drop, OnOk};
ghost use Rattle.rdfc_ndegree.specs.NumberIssuers.{place_in};
ghost use Rattle.rdfc_ndegree.specs.Internal.Issuing.{place_below};

use crate::order::Order;
use base_types::{Memory, Sequence};
use std::alloc::Global;
use std::marker::Model;

/// An issuer over the rows of a table: the numbers that it has named, which are the first `count` of
/// the order. What it named last can be taken back. It then stays in the order until another number
/// is named in its place, since mostly the same ones are named again at once. What the issuer costs
/// hangs on what it names, however many rows there are.
#[derive(Debug, Drop)]
pub(crate) struct Temporary {
    order: Order,
    count: usize,
}

impl Model for Temporary {
    ghost use Rattle.std.specs.Prelude.{◌≤◌, List, ℕ, length, take};

    ghost Value = { List ℕ };

    ghost view = { λ t. take t.count t.order };

    ghost invariant = { λ t. t.count ≤ length t.order };
}

impl Temporary {
    /// The issuer that has named nothing yet. It takes no memory.
    pub fn new(alloc: Global) -> Temporary
        ensures { result ≡ [] }
    {
        let order = Order::new(alloc);
        Temporary { order, count: 0 }
    }

    /// Names a number, also one that is named already.
    #[tactic(auto, using(crate::proofs::Places::first_numbers))]
    pub fn append(&mut self, node: usize) -> Result<(), Memory>
        ensures { OnOk result (self.new ≡ self.old ++ node ∷ []) }
    {
        if let Some(next) = self.order.place_after(self.count, node) {
            self.count = next;
            return Ok(());
        }
        self.order.cut(self.count);
        self.order.push(node)?;
        self.count = self.order.len();
        Ok(())
    }

    /// Names these numbers, in their order.
    pub fn append_all(&mut self, nodes: &[usize]) -> Result<(), Memory>
        ensures { OnOk result (self.new ≡ self.old ++ nodes.now) }
    {
        for node in nodes {
            self.append(*node)?;
        }
        Ok(())
    }

    /// Takes back what was named after the first `count` numbers.
    pub fn cut_back(&mut self, count: usize)
        ensures { self.new ≡ take count self.old }
    {
        self.count = self.count.min(count);
    }

    /// The place of a number in the order, from 0, or `None` where it is not named.
    pub fn number(&self, node: usize) -> Option<usize>
        ensures { result ≡ place_in self.now node }
    {
        place_below(self.order.place_of(node), self.count)
    }

    /// How many numbers are named.
    pub fn len(&self) -> usize
        ensures { result ≡ length self.now }
    {
        self.as_slice().len()
    }

    /// What was named after the first `count` numbers.
    pub fn after(&self, count: usize) -> &[usize]
        ensures { result.now ≡ drop count self.now }
    {
        let order = self.as_slice();
        if count >= order.len() {
            return &[];
        }
        &order[count..]
    }

    /// The numbers in the order in which they were named.
    pub fn into_order(self) -> Sequence<usize>
        ensures { result ≡ self }
    {
        let Temporary { order, count } = self;
        let mut numbers = order.into_vec();
        numbers.truncate(count);
        Sequence::from_vec(numbers)
    }

    fn as_slice(&self) -> &[usize]
        ensures { result.now ≡ self.now }
    {
        &self.order.as_slice()[..self.count]
    }
}

/// A place, if it is one of the first `count`.
fn place_below(place: Option<usize>, count: usize) -> Option<usize>
    ensures { result ≡ place_below place count }
{
    match place {
        Some(place) => { if place < count { Some(place) } else { None } }
        None => None,
    }
}
