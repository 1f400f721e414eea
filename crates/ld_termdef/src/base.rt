//! The base IRI of a context.

ghost use Rattle.std.specs.Prelude.{◌≡◌};
ghost use Rattle.std.specs.Option.{MatchOption};
ghost use Rattle.iri_ref.specs.Components.{IsAbsolute};

use base_types::Text;
use iri_ref::is_absolute;
use std::marker::Model;

/// A base IRI, which is absolute, so that references can be resolved at it. RFC 3986, section 5.1.
#[derive(Clone, Debug, Drop)]
pub struct BaseIri {
    iri: Text,
}

impl Model for BaseIri {
    ghost use Rattle.std.specs.Prelude.{List, ℕ};
    ghost use Rattle.iri_ref.specs.Components.{IsAbsolute};

    ghost Value = { List ℕ };

    ghost view = { λ b. b.iri };

    ghost invariant = { λ b. IsAbsolute b.iri };
}

impl BaseIri {
    /// The base IRI of this text; `None` exactly where it is not absolute. It takes no memory.
    pub fn new(iri: Text) -> Option<BaseIri>
        ensures { MatchOption result (IsAbsolute iri → ⊥) (λ base. (base ≡ iri) × IsAbsolute iri) }
    {
        if is_absolute(iri.as_str()) {
            Some(BaseIri { iri })
        } else {
            None
        }
    }

    /// The text, which is absolute.
    pub fn as_str(&self) -> &str
        ensures text { result.now ≡ self.now }
        ensures absolute { IsAbsolute self.now }
    {
        self.iri.as_str()
    }
}
