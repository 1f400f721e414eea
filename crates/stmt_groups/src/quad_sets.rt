//! Sets of statements by their numbers, asked in the logarithm of their size.

ghost use Rattle.std.specs.Prelude.{◌≡◌, ◌↔◌, ◌⊎◌, [], Contains, IfOk, IsTrue, OnOk};
ghost use Rattle.base_types.specs.Sets.{SameElements};
ghost use Rattle.term_store.specs.declared.statements.Quad.{Quad};

use base_types::Memory;
use std::alloc::Global;
use std::collections::BTreeSet;
use std::marker::Model;
use term_store::Quad;

/// A set of statements, which contracts see as a list.
#[derive(Drop)]
pub struct QuadSet {
    quads: BTreeSet<Quad>,
}

impl Model for QuadSet {
    ghost use Rattle.std.specs.Prelude.{List};
    ghost use Rattle.term_store.specs.declared.statements.Quad.{Quad};

    ghost Value = { List Quad };

    ghost view = { λ s. s.quads.keys };
}

impl QuadSet {
    /// The set of these statements.
    pub fn of(alloc: Global, quads: &[Quad]) -> Result<QuadSet, Memory>
        ensures { IfOk result (λ s. SameElements s quads.now) }
    {
        let mut set = QuadSet::new(alloc);
        for quad in quads {
            set.add(*quad)?;
        }
        Ok(set)
    }

    fn new(alloc: Global) -> QuadSet
        ensures { result ≡ [] }
    {
        QuadSet {
            quads: BTreeSet::new(alloc),
        }
    }

    fn add(&mut self, quad: Quad) -> Result<(), Memory>
        ensures { OnOk result ((other : Quad)
            → Contains self.new other ↔ ((quad ≡ other) ⊎ Contains self.old other)) }
    {
        drop(self.quads.insert(quad)?);
        Ok(())
    }

    pub fn has(&self, quad: &Quad) -> bool
        ensures { IsTrue result ↔ Contains self.now quad.now }
    {
        self.quads.contains(quad)
    }
}
