//! Statements and datasets as the program keeps them: as texts (RDF 1.1 N-Quads, 4).

ghost use Rattle.std.specs.Prelude.{◌≡◌, ◌↔◌, [], length, IsTrue};
ghost use Rattle.base_types.specs.Sets.{SameElements, AllDiffer};

use base_types::Text;
use std::alloc::Global;
use std::marker::Model;

/// A statement as the spellings of its parts: an IRI in angle brackets, a canonical literal, or `_:`
/// and a name for a blank node. Without a graph it stands in the default graph.
#[derive(Clone, Debug, Drop, PartialEq, Eq, PartialOrd, Ord)]
pub struct TextQuad {
    pub subject: Text,
    pub predicate: Text,
    pub object: Text,
    pub graph: Option<Text>,
}

/// A dataset: statements without repeats, which contracts see as a list.
#[derive(Debug, Drop)]
pub struct TextQuads {
    quads: Vec<TextQuad>,
}

impl Model for TextQuads {
    ghost use Rattle.std.specs.Prelude.{List};
    ghost use Rattle.base_types.specs.Sets.{AllDiffer};
    ghost use Rattle.nquads.specs.declared.quads.TextQuad.{TextQuad};

    ghost Value = { List TextQuad };

    ghost view = { λ q. q.quads.items };

    ghost invariant = { λ q. AllDiffer q.quads.items };
}

impl TextQuads {
    /// The empty dataset. It takes no memory.
    pub fn new(alloc: Global) -> TextQuads
        ensures { result ≡ [] }
    {
        TextQuads {
            quads: Vec::new(alloc),
        }
    }

    /// The same statements, each once, in some order. It takes no memory.
    pub fn from_vec(quads: Vec<TextQuad>) -> TextQuads
        ensures same { SameElements result quads.items }
        ensures differ { AllDiffer result }
    {
        let mut quads = quads;
        quads.sort_unstable();
        quads.dedup();
        TextQuads { quads }
    }

    pub fn as_slice(&self) -> &[TextQuad]
        ensures same { result.now ≡ self.now }
        ensures differ { AllDiffer self.now }
    {
        self.quads.as_slice()
    }

    pub fn len(&self) -> usize
        ensures { result ≡ length self.now }
    {
        self.quads.len()
    }

    pub fn is_empty(&self) -> bool
        ensures { IsTrue result ↔ (self.now ≡ []) }
    {
        self.quads.is_empty()
    }
}
