//! Statements and datasets as numbers of terms (RDF 1.1 Concepts, 3.1 and 4).

ghost use Rattle.std.specs.Prelude.{◌≡◌, ◌↔◌, [], length, IsTrue};
ghost use Rattle.base_types.specs.Sets.{SameElements, AllDiffer};

use crate::store::TermId;
use std::alloc::Global;
use std::marker::Model;

/// A statement as the numbers of its parts in one store. Without a graph it stands in the default
/// graph.
#[derive(Clone, Copy, Debug, PartialEq, Eq, PartialOrd, Ord)]
pub struct Quad {
    pub subject: TermId,
    pub predicate: TermId,
    pub object: TermId,
    pub graph: Option<TermId>,
}

/// A dataset: statements without repeats, which contracts see as a list.
#[derive(Debug, Drop)]
pub struct Quads {
    quads: Vec<Quad>,
}

impl Model for Quads {
    ghost use Rattle.std.specs.Prelude.{List};
    ghost use Rattle.base_types.specs.Sets.{AllDiffer};
    ghost use Rattle.term_store.specs.declared.statements.Quad.{Quad};

    ghost Value = { List Quad };

    ghost view = { λ q. q.quads.items };

    ghost invariant = { λ q. AllDiffer q.quads.items };
}

impl Quads {
    /// The empty dataset. It takes no memory.
    pub fn new(alloc: Global) -> Quads
        ensures { result ≡ [] }
    {
        Quads {
            quads: Vec::new(alloc),
        }
    }

    /// The same statements, each once, in some order. It takes no memory.
    pub fn from_vec(quads: Vec<Quad>) -> Quads
        ensures same { SameElements result quads.items }
        ensures differ { AllDiffer result }
    {
        let mut quads = quads;
        quads.sort_unstable();
        quads.dedup();
        Quads { quads }
    }

    pub fn as_slice(&self) -> &[Quad]
        ensures same { result.now ≡ self.now }
        ensures differ { AllDiffer self.now }
    {
        self.quads.as_slice()
    }

    pub fn len(&self) -> usize
        ensures { result ≡ length self.now }
    {
        self.quads.len()
    }

    pub fn is_empty(&self) -> bool
        ensures { IsTrue result ↔ (self.now ≡ []) }
    {
        self.quads.is_empty()
    }
}
