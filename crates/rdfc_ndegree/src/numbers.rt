//! Numbers of terms by place, found by hash.
ghost use Rattle.std.specs.Prelude.{◌≡◌, [], ◌∷◌, ◌++◌, None, OnOk, slice_get};
ghost use Rattle.std.specs.Option.{option_map};
ghost use Rattle.rdfc_ndegree.specs.Internal.Building.{number_among};

use base_types::Memory;
use indexmap::IndexSet;
use std::alloc::Global;
use std::marker::Model;
use term_store::TermId;

/// Numbers of a store in the order in which they were put in, each once, found by hash. The place of
/// a number is that of its row.
#[derive(Debug, Drop)]
pub(crate) struct Numbers {
    ids: IndexSet<u32>,
}

impl Model for Numbers {
    ghost use Rattle.std.specs.Prelude.{List, ℕ};

    ghost Value = { List ℕ };

    ghost view = { λ n. n.ids.keys };
}

impl Numbers {
    /// No numbers. It takes no memory.
    pub fn new(alloc: Global) -> Numbers
        ensures { result ≡ [] }
    {
        Numbers {
            ids: IndexSet::new(alloc),
        }
    }

    /// Puts in a number that has no place yet.
    ///
    /// # Errors
    ///
    /// `Memory`: there is no memory for the number.
    pub fn push(&mut self, id: TermId) -> Result<(), Memory>
        requires { number_among self.old id.index ≡ None }
        ensures { OnOk result (self.new ≡ self.old ++ id.index ∷ []) }
    {
        self.ids.insert(id.index)?;
        Ok(())
    }

    /// The place of a number, from 0.
    pub fn place_of(&self, id: TermId) -> Option<usize>
        ensures { result ≡ number_among self.now id.index }
    {
        self.ids.get_index_of(&id.index)
    }

    /// The number at a place, counted from 0.
    pub fn at(&self, place: usize) -> Option<TermId>
        ensures { option_map (λ id. id.index) result ≡ slice_get self.now place }
    {
        let index = *self.ids.get_index(place)?;
        Some(TermId { index })
    }
}
