//! The keywords, and the form that a keyword has. JSON-LD 1.1, 1.7, Syntax Tokens and Keywords.
ghost use Rattle.std.specs.Prelude.{◌≡◌, ◌↔◌, ◌≢◌, ◌&&◌, not, Some, None};
ghost use Rattle.std.specs.List.{list_all};
ghost use Rattle.std.specs.Char.{is_ascii_alphabetic};
ghost use Rattle.ld_words.specs.Spellings.{has_keyword_form, is_empty, keyword_of, keyword_text};

/// A keyword of JSON-LD 1.1 (JSON-LD 1.1, section 1.7), in the order of the spellings.
///
/// `Absent` is `@none`, and `Kind` is `@type`.
#[derive(Clone, Copy, Debug, PartialEq, Eq)]
pub enum LdKeyword {
    /// `@base`
    Base,
    /// `@container`
    Container,
    /// `@context`
    Context,
    /// `@direction`
    Direction,
    /// `@graph`
    Graph,
    /// `@id`
    Id,
    /// `@import`
    Import,
    /// `@included`
    Included,
    /// `@index`
    Index,
    /// `@json`
    Json,
    /// `@language`
    Language,
    /// `@list`
    List,
    /// `@nest`
    Nest,
    /// `@none`
    Absent,
    /// `@prefix`
    Prefix,
    /// `@propagate`
    Propagate,
    /// `@protected`
    Protected,
    /// `@reverse`
    Reverse,
    /// `@set`
    Set,
    /// `@type`
    Kind,
    /// `@value`
    Value,
    /// `@version`
    Version,
    /// `@vocab`
    Vocab,
}

/// Every keyword, each once.
const KEYWORDS: [LdKeyword; 23] = [
    LdKeyword::Base,
    LdKeyword::Container,
    LdKeyword::Context,
    LdKeyword::Direction,
    LdKeyword::Graph,
    LdKeyword::Id,
    LdKeyword::Import,
    LdKeyword::Included,
    LdKeyword::Index,
    LdKeyword::Json,
    LdKeyword::Language,
    LdKeyword::List,
    LdKeyword::Nest,
    LdKeyword::Absent,
    LdKeyword::Prefix,
    LdKeyword::Propagate,
    LdKeyword::Protected,
    LdKeyword::Reverse,
    LdKeyword::Set,
    LdKeyword::Kind,
    LdKeyword::Value,
    LdKeyword::Version,
    LdKeyword::Vocab,
];

impl LdKeyword {
    /// The keyword's spelling, which begins with `@`.
    pub fn text(self) -> &'static str
        ensures { result.now ≡ keyword_text self }
    {
        match self {
            LdKeyword::Base => "@base",
            LdKeyword::Container => "@container",
            LdKeyword::Context => "@context",
            LdKeyword::Direction => "@direction",
            LdKeyword::Graph => "@graph",
            LdKeyword::Id => "@id",
            LdKeyword::Import => "@import",
            LdKeyword::Included => "@included",
            LdKeyword::Index => "@index",
            LdKeyword::Json => "@json",
            LdKeyword::Language => "@language",
            LdKeyword::List => "@list",
            LdKeyword::Nest => "@nest",
            LdKeyword::Absent => "@none",
            LdKeyword::Prefix => "@prefix",
            LdKeyword::Propagate => "@propagate",
            LdKeyword::Protected => "@protected",
            LdKeyword::Reverse => "@reverse",
            LdKeyword::Set => "@set",
            LdKeyword::Kind => "@type",
            LdKeyword::Value => "@value",
            LdKeyword::Version => "@version",
            LdKeyword::Vocab => "@vocab",
        }
    }
}

/// The keyword that is spelled `text`; `None` exactly where `text` is no keyword.
pub fn keyword(text: &str) -> Option<LdKeyword>
    ensures some { (k : LdKeyword) → (result ≡ Some k) ↔ (text.now ≡ keyword_text k) }
    ensures none { (result ≡ None) ↔ ((k : LdKeyword) → text.now ≢ keyword_text k) }
    ensures found { result ≡ keyword_of text.now }
{
    find_keyword(text)
}

fn find_keyword(text: &str) -> Option<LdKeyword>
    ensures some { (k : LdKeyword) → (result ≡ Some k) ↔ (text.now ≡ keyword_text k) }
    ensures none { (result ≡ None) ↔ ((k : LdKeyword) → text.now ≢ keyword_text k) }
{
    if !text.as_bytes().starts_with(b"@") {
        return None;
    }
    for known in KEYWORDS {
        if known.text() == text {
            return Some(known);
        }
    }
    None
}

fn all_are_letters(bytes: &[u8]) -> bool
    ensures { result ≡ list_all is_ascii_alphabetic bytes.now }
{
    bytes.iter().all(|byte| byte.is_ascii_alphabetic())
}

/// Whether these are ASCII letters, at least one.
#[tactic(auto, using(crate::proofs::UniqueSpellings::some_letters))]
fn is_letters(bytes: &[u8]) -> bool
    ensures { result ≡ (not (is_empty bytes.now) && list_all is_ascii_alphabetic bytes.now) }
{
    match bytes {
        [] => false,
        [_, ..] => all_are_letters(bytes),
    }
}

/// Whether `text` is `@` and one or more ASCII letters, the form of a keyword: such a text that is no
/// keyword is read as nothing. JSON-LD 1.1 API, sections 4.2.2 and 5.2.2.
pub fn is_keyword_form(text: &str) -> bool
    ensures { result ≡ has_keyword_form text.now }
{
    match text.as_bytes() {
        [] => false,
        [first, rest @ ..] => *first == b'@' && is_letters(rest),
    }
}
