//! Labels of blank nodes by their numbers in a store.

ghost use Rattle.std.specs.Prelude.{◌≡◌, [], ◌∷◌, ◌++◌, None, length, map, slice_get, OnOk, OnErr};
ghost use Rattle.base_types.specs.Sets.{AllDiffer};
ghost use Rattle.std.specs.Option.{option_copied, option_map};
ghost use Rattle.nquads.specs.Stored.{find_number, number_label};

use base_types::{Memory, Text};
use indexmap::IndexMap;
use std::alloc::Global;
use std::marker::Model;
use term_store::TermId;

/// The label of a blank node: its number in a store, and its label as it stands behind `_:`.
#[derive(Clone, Debug, Drop, PartialEq, Eq)]
pub struct Label {
    pub blank: TermId,
    pub text: Text,
}

/// Labels in the order in which they were put in, found by hash. No blank node has two.
#[derive(Debug, Drop)]
pub struct Labels {
    labels: IndexMap<u32, Text>,
}

impl Model for Labels {
    ghost use Rattle.std.specs.Prelude.{List, map};
    ghost use Rattle.nquads.specs.declared.numbers.Label.{Label};
    ghost use Rattle.nquads.specs.Stored.{number_label};

    ghost Value = { List Label };

    ghost view = { λ ls. map (λ e. number_label e.0 e.1) ls.labels.entries };
}

impl Labels {
    /// No labels. It takes no memory.
    pub fn new(alloc: Global) -> Labels
        ensures { result ≡ [] }
    {
        Labels {
            labels: IndexMap::new(alloc),
        }
    }

    /// Labels a blank node that has no label yet. After a refusal the labels are as before.
    ///
    /// # Errors
    ///
    /// `Memory`: there is no memory for the label.
    pub fn push(&mut self, blank: TermId, text: Text) -> Result<(), Memory>
        requires { find_number self.old blank.index ≡ None }
        ensures ok { OnOk result (self.new ≡ self.old ++ number_label blank.index text ∷ []) }
        ensures err { OnErr result (self.new ≡ self.old) }
    {
        drop(self.labels.insert(blank.index, text)?);
        Ok(())
    }

    /// The label of the blank node with this number.
    pub fn get(&self, blank: TermId) -> Option<&Text>
        ensures { option_copied result ≡ find_number self.now blank.index }
    {
        self.labels.get(&blank.index)
    }

    /// The blank node at a place, counted from 0, and its label.
    pub fn at(&self, place: usize) -> Option<(TermId, &Text)>
        ensures { option_map (λ p. number_label p.0.index p.1.now) result
            ≡ slice_get self.now place }
    {
        let (number, text) = self.labels.get_index(place)?;
        Some((TermId { index: *number }, text))
    }

    /// The number of labels. No blank node has two.
    pub fn len(&self) -> usize
        ensures count { result ≡ length self.now }
        ensures differ { AllDiffer (map (λ l. l.blank.index) self.now) }
    {
        self.labels.len()
    }
}
