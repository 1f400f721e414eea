//! Term definitions. JSON-LD 1.1 API, section 4.1.

use base_types::{Keyed, Text};
use json_tree::{Place, Tree};
use ld_words::LdKeyword;

/// What a term stands for. JSON-LD 1.1 API, section 4.1, IRI mapping.
#[derive(Clone, Debug, Drop)]
pub enum Mapped {
    /// The term is defined, and means nothing.
    Nothing,
    /// The term is another name of a keyword, or `@type` itself.
    Word(LdKeyword),
    /// An IRI. It need not be absolute: the vocabulary and a term, or a prefix and what stands
    /// behind it, may hold what no IRI holds.
    Iri(Text),
}

/// How values of a term are read. JSON-LD 1.1 API, section 4.1, type mapping.
#[derive(Clone, Debug, Drop)]
pub enum Kind {
    /// `@id`: texts name nodes, relative to the base.
    Id,
    /// `@vocab`: texts name nodes, as terms or behind the vocabulary.
    Vocab,
    /// `@json`: a value is a JSON literal.
    Json,
    /// `@none`.
    Plain,
    /// An absolute IRI: a value is a literal of this datatype.
    Datatype(Text),
}

/// The language or the base direction that a term gives to texts. JSON-LD 1.1 API, section 4.1,
/// language mapping and direction mapping.
#[derive(Clone, Debug, Drop)]
pub enum Setting {
    /// The term says nothing, so that the context's default holds.
    Absent,
    /// The term clears the default.
    Cleared,
    Set(Text),
}

/// The containers of a term. JSON-LD 1.1 API, section 4.1, container mapping.
#[derive(Clone, Copy, Debug, PartialEq, Eq)]
pub struct Containers {
    /// `@list`
    pub list: bool,
    /// `@set`
    pub set: bool,
    /// `@language`
    pub language: bool,
    /// `@index`
    pub index: bool,
    /// `@id`
    pub id: bool,
    /// `@type`
    pub kind: bool,
    /// `@graph`
    pub graph: bool,
}

/// The context that holds for values of a term, or for nodes of a type, and the place where it
/// stands. It is processed where it is used. JSON-LD 1.1 API, section 4.1, local context.
#[derive(Debug, Drop)]
pub struct Scoped {
    pub context: Tree,
    pub at: Place,
}

/// What a term means. JSON-LD 1.1 API, section 4.1, term definition.
#[derive(Debug, Drop)]
pub struct TermDef {
    pub mapped: Mapped,
    /// Whether the term may stand before a colon as a prefix.
    pub prefix: bool,
    /// Whether the term may not be defined otherwise.
    pub protected: bool,
    /// Whether subject and object are exchanged.
    pub reverse: bool,
    pub kind: Option<Kind>,
    pub language: Setting,
    pub direction: Setting,
    pub containers: Containers,
    pub scoped: Option<Scoped>,
    /// The term under which the property may be nested, or `@nest`.
    pub nest: Option<Text>,
    /// The property that the keys of an index map are values of, as it is written.
    pub index: Option<Text>,
}

/// A term and its definition.
#[derive(Debug, Drop)]
pub struct TermEntry {
    pub term: Text,
    pub def: TermDef,
}

impl Keyed for TermEntry {
    ghost text = { λ e. e.term };

    fn key(&self) -> &str {
        self.term.as_str()
    }
}
