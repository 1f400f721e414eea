//! Numbers in an order, and the first place of each (RDF Dataset Canonicalization, 4.3).
ghost use Rattle.std.specs.Prelude.{◌≡◌, ◌≤◌, ◌-◌, ◌++◌, ◌∷◌, [], length, take, IfSome, OnErr, OnOk};
ghost use Rattle.rdfc_ndegree.specs.NumberIssuers.{place_in};

use base_types::Memory;
use indexmap::IndexMap;
use std::alloc::Global;
use std::marker::Model;

/// Numbers in an order, in which one may stand more than once, and the first place of each, found by
/// hash. It takes memory and time for the numbers that it holds, however great they are.
#[derive(Debug, Drop)]
pub(crate) struct Order {
    numbers: Vec<usize>,
    places: IndexMap<usize, usize>,
}

impl Model for Order {
    ghost use Rattle.std.specs.Prelude.{◌≡◌, List, ℕ, nat_eq};
    ghost use Rattle.indexmap.specs.IndexMap.{get};
    ghost use Rattle.rdfc_ndegree.specs.NumberIssuers.{place_in};

    ghost Value = { List ℕ };

    ghost view = { λ o. o.numbers.items };

    ghost invariant = { λ o. (n : ℕ) → get nat_eq o.places n ≡ place_in o.numbers.items n };
}

impl Order {
    /// No numbers. It takes no memory.
    pub fn new(alloc: Global) -> Order
        ensures { result ≡ [] }
    {
        let numbers = Vec::new(alloc);
        let places = IndexMap::new(alloc);
        Order { numbers, places }
    }

    /// Puts a number at the end. After a refusal the order is as before.
    ///
    /// # Errors
    ///
    /// `Memory`: there is no memory for the number or its place.
    pub fn push(&mut self, number: usize) -> Result<(), Memory>
        ensures ok { OnOk result (self.new ≡ self.old ++ number ∷ []) }
        ensures err { OnErr result (self.new ≡ self.old) }
    {
        if self.place_of(number).is_some() {
            self.numbers.push(number)?;
            return Ok(());
        }
        // Room comes first, so that a refusal leaves both as they were.
        let place = self.numbers.len();
        self.numbers.reserve(1)?;
        self.places.insert(number, place)?;
        self.numbers.push_reserved(number);
        Ok(())
    }

    /// Takes off what stands behind the first `count` numbers.
    pub fn cut(&mut self, count: usize)
        ensures { self.new ≡ take count self.old }
    {
        while self.numbers.len() > count {
            self.pop();
        }
    }

    /// Takes off the number that stands last.
    fn pop(&mut self)
        ensures { self.new ≡ take (length self.old - 1) self.old }
    {
        let count = self.numbers.len();
        if count == 0 {
            return;
        }
        let number = self.numbers[count - 1];
        let place = self.place_of(number);
        self.numbers.truncate(count - 1);
        if place == Some(count - 1) {
            self.places.swap_remove(&number);
        }
    }

    /// The first place of a number, from 0, or `None` where it does not stand in the order.
    pub fn place_of(&self, number: usize) -> Option<usize>
        ensures { result ≡ place_in self.now number }
    {
        self.places.get(&number).copied()
    }

    /// The place behind `place`, if `number` stands there.
    pub fn place_after(&self, place: usize, number: usize) -> Option<usize>
        ensures within { IfSome result (λ next. next ≤ length self.now) }
        ensures number { IfSome result (λ next.
            take next self.now ≡ take place self.now ++ number ∷ []) }
    {
        if place >= self.numbers.len() {
            return None;
        }
        let there = self.numbers[place];
        if there != number {
            return None;
        }
        Some(place + 1)
    }

    /// How many numbers there are.
    pub fn len(&self) -> usize
        ensures { result ≡ length self.now }
    {
        self.numbers.len()
    }

    pub fn as_slice(&self) -> &[usize]
        ensures { result.now ≡ self.now }
    {
        self.numbers.as_slice()
    }

    /// The same numbers. It takes no memory.
    pub fn into_vec(self) -> Vec<usize>
        ensures { result.items ≡ self }
    {
        self.numbers
    }
}
