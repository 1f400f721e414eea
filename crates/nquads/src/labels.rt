//! Labels of blank nodes by their texts.

ghost use Rattle.std.specs.Prelude.{◌≡◌, [], ◌∷◌, ◌++◌, None, length, map, slice_get, OnOk, OnErr};
ghost use Rattle.base_types.specs.Sets.{AllDiffer};
ghost use Rattle.std.specs.Option.{option_copied, option_map};
ghost use Rattle.nquads.specs.Texts.{find_label, label};

use base_types::{Memory, Text};
use indexmap::IndexMap;
use std::alloc::Global;
use std::marker::Model;

/// The label of a blank node: the text by which statements name it, and its label in a line.
#[derive(Clone, Debug, Drop, PartialEq, Eq)]
pub struct TextLabel {
    pub blank: Text,
    pub text: Text,
}

/// Labels in the order in which they were put in, found by hash. No blank node has two.
#[derive(Debug, Drop)]
pub struct TextLabels {
    labels: IndexMap<String, Text>,
}

impl Model for TextLabels {
    ghost use Rattle.std.specs.Prelude.{List, map, string_bytes};
    ghost use Rattle.nquads.specs.declared.labels.TextLabel.{TextLabel};
    ghost use Rattle.nquads.specs.Texts.{label};

    ghost Value = { List TextLabel };

    ghost view = { λ ls. map (λ e. label (string_bytes e.0) e.1) ls.labels.entries };
}

impl TextLabels {
    /// No labels. It takes no memory.
    pub fn new(alloc: Global) -> TextLabels
        ensures { result ≡ [] }
    {
        TextLabels {
            labels: IndexMap::new(alloc),
        }
    }

    /// Labels a blank node that has no label yet. After a refusal the labels are as before.
    ///
    /// # Errors
    ///
    /// `Memory`: there is no memory for the label.
    pub fn push(&mut self, blank: Text, text: Text) -> Result<(), Memory>
        requires { find_label self.old blank ≡ None }
        ensures ok { OnOk result (self.new ≡ self.old ++ label blank text ∷ []) }
        ensures err { OnErr result (self.new ≡ self.old) }
    {
        drop(self.labels.insert(blank.into_string(), text)?);
        Ok(())
    }

    /// The label of the blank node that statements name `blank`.
    pub fn get(&self, blank: &str) -> Option<&Text>
        ensures { option_copied result ≡ find_label self.now blank.now }
    {
        self.labels.get(blank)
    }

    /// The blank node at a place, counted from 0, as statements name it, and its label.
    pub fn at(&self, place: usize) -> Option<(&str, &Text)>
        ensures { option_map (λ p. label p.0.now p.1.now) result ≡ slice_get self.now place }
    {
        let (blank, text) = self.labels.get_index(place)?;
        Some((blank.as_str(), text))
    }

    /// The number of labels. No blank node has two.
    pub fn len(&self) -> usize
        ensures count { result ≡ length self.now }
        ensures differ { AllDiffer (map (λ l. l.blank) self.now) }
    {
        self.labels.len()
    }
}
