//! The canonical issuer over numbers (RDF Dataset Canonicalization, 4.3 and 4.5).
ghost use Rattle.std.specs.Prelude.{◌≡◌, ◌<◌, ℕ, [], length, slice_get, OnOk, OnErr, IfOk};
ghost use Rattle.base_types.specs.Sets.{AllDiffer};
ghost use Rattle.rdfc_ndegree.specs.NumberIssuers.{issue_number, place_in, place_at};

use base_types::Memory;
use std::alloc::Global;
use std::marker::Model;

/// The canonical issuer (RDF Dataset Canonicalization, 4.3) over the rows of a table: the numbers
/// that it has named, in order, and for each number its place in the order.
#[derive(Debug, Drop)]
pub struct Canonical {
    order: Vec<usize>,
    places: Vec<Option<usize>>,
}

impl Model for Canonical {
    ghost use Rattle.std.specs.Prelude.{List, ℕ};
    ghost use Rattle.rdfc_ndegree.specs.NumberIssuers.{ArePlaces};

    ghost Value = { List ℕ };

    ghost view = { λ c. c.order.items };

    ghost invariant = { λ c. ArePlaces c.places.items c.order.items };
}

impl Canonical {
    /// The issuer that has named nothing yet, with room for the numbers below `nodes`.
    ///
    /// # Errors
    ///
    /// `Memory`: there is no memory for the places.
    pub fn new(alloc: Global, nodes: usize) -> Result<Canonical, Memory>
        ensures { IfOk result (λ c. c ≡ []) }
    {
        Ok(Canonical {
            order: Vec::new(alloc),
            places: vec![in alloc; None; nodes]?,
        })
    }

    /// Names a number. One that is named already keeps its place (RDF Dataset Canonicalization,
    /// 4.5).
    ///
    /// # Errors
    ///
    /// `Memory`: there is no memory for the number. The issuer is as before.
    pub fn issue(&mut self, node: usize) -> Result<(), Memory>
        ensures ok { OnOk result (self.new ≡ issue_number self.old node) }
        ensures err { OnErr result (self.new ≡ self.old) }
    {
        if self.number(node).is_some() {
            return Ok(());
        }
        make_room(&mut self.places, node)?;
        let place = self.order.len();
        self.order.push(node)?;
        self.places[node] = Some(place);
        Ok(())
    }

    /// The place of a number in the order, from 0, or `None` where it is not named.
    pub fn number(&self, node: usize) -> Option<usize>
        ensures { result ≡ place_in self.now node }
    {
        *self.places.get(node)?
    }

    /// The numbers in the order in which they were named, each once.
    pub fn as_slice(&self) -> &[usize]
        ensures same { result.now ≡ self.now }
        ensures differ { AllDiffer self.now }
    {
        self.order.as_slice()
    }

    /// How many numbers are named.
    pub fn len(&self) -> usize
        ensures { result ≡ length self.now }
    {
        self.order.len()
    }
}

/// Lengthens the places so that one is kept for `node`.
#[tactic(auto, using(crate::proofs::Places::room))]
fn make_room(places: &mut Vec<Option<usize>>, node: usize) -> Result<(), Memory>
    ensures same { (n : ℕ)
        → place_at (slice_get places.new.items n) ≡ place_at (slice_get places.old.items n) }
    ensures room { OnOk result (node < length places.new.items) }
{
    if node < places.len() {
        return Ok(());
    }
    let room = node.checked_add(1).ok_or(Memory)?;
    places.resize(room, None)?;
    Ok(())
}
