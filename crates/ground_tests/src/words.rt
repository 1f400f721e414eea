//! The spellings of the standard, each typed from it, and texts that are none.
use ld_words::{Code, LdKeyword, is_keyword_form, keyword};

/// JSON-LD 1.1, section 1.7, in its order: all but `:`, which is no word.
const KEYWORDS: [(&str, LdKeyword); 23] = [
    ("@base", LdKeyword::Base),
    ("@container", LdKeyword::Container),
    ("@context", LdKeyword::Context),
    ("@direction", LdKeyword::Direction),
    ("@graph", LdKeyword::Graph),
    ("@id", LdKeyword::Id),
    ("@import", LdKeyword::Import),
    ("@included", LdKeyword::Included),
    ("@index", LdKeyword::Index),
    ("@json", LdKeyword::Json),
    ("@language", LdKeyword::Language),
    ("@list", LdKeyword::List),
    ("@nest", LdKeyword::Nest),
    ("@none", LdKeyword::Absent),
    ("@prefix", LdKeyword::Prefix),
    ("@propagate", LdKeyword::Propagate),
    ("@protected", LdKeyword::Protected),
    ("@reverse", LdKeyword::Reverse),
    ("@set", LdKeyword::Set),
    ("@type", LdKeyword::Kind),
    ("@value", LdKeyword::Value),
    ("@version", LdKeyword::Version),
    ("@vocab", LdKeyword::Vocab),
];

#[test]
fn keywords_are_those_of_the_standard(rt: HostRuntime) {
    for row in &KEYWORDS {
        let (text, word) = *row;
        assert!(rt; keyword(text) == Some(word));
        assert!(rt; word.text() == text);
        assert!(rt; is_keyword_form(text));
    }
    // texts that are no keyword, and whether they have the form of one
    for (text, form) in [
        ("", false),
        ("@", false),
        ("type", false),
        ("#type", false),
        ("Type@", false),
        ("@Type", true),
        ("@types", true),
        ("@typ", true),
        ("@AZaz", true),
        ("@propogate", true),
        ("@at@", false),
        ("@[a", false),
        ("@`a", false),
        ("@a{", false),
        ("@a-b", false),
        ("@a1", false),
        ("@type ", false),
        ("@é", false),
    ] {
        assert!(rt; keyword(text) == None);
        assert!(rt; is_keyword_form(text) == form);
    }
}

/// JSON-LD 1.1 API, section 9.6, JsonLdErrorCode, in its order, without those that reading a document
/// does not give; then our own.
const CODES: [(Code, &str); 49] = [
    (Code::CollidingKeywords, "colliding keywords"),
    (Code::ContextOverflow, "context overflow"),
    (Code::CyclicIriMapping, "cyclic IRI mapping"),
    (Code::InvalidIdValue, "invalid @id value"),
    (Code::InvalidImportValue, "invalid @import value"),
    (Code::InvalidIncludedValue, "invalid @included value"),
    (Code::InvalidIndexValue, "invalid @index value"),
    (Code::InvalidNestValue, "invalid @nest value"),
    (Code::InvalidPrefixValue, "invalid @prefix value"),
    (Code::InvalidPropagateValue, "invalid @propagate value"),
    (Code::InvalidProtectedValue, "invalid @protected value"),
    (Code::InvalidReverseValue, "invalid @reverse value"),
    (Code::InvalidVersionValue, "invalid @version value"),
    (Code::InvalidBaseDirection, "invalid base direction"),
    (Code::InvalidBaseIri, "invalid base IRI"),
    (Code::InvalidContainerMapping, "invalid container mapping"),
    (Code::InvalidContextEntry, "invalid context entry"),
    (
        Code::InvalidContextNullification,
        "invalid context nullification",
    ),
    (Code::InvalidDefaultLanguage, "invalid default language"),
    (Code::InvalidIriMapping, "invalid IRI mapping"),
    (Code::InvalidKeywordAlias, "invalid keyword alias"),
    (Code::InvalidLanguageMapValue, "invalid language map value"),
    (Code::InvalidLanguageMapping, "invalid language mapping"),
    (
        Code::InvalidLanguageTaggedString,
        "invalid language-tagged string",
    ),
    (
        Code::InvalidLanguageTaggedValue,
        "invalid language-tagged value",
    ),
    (Code::InvalidLocalContext, "invalid local context"),
    (Code::InvalidRemoteContext, "invalid remote context"),
    (Code::InvalidReverseProperty, "invalid reverse property"),
    (
        Code::InvalidReversePropertyMap,
        "invalid reverse property map",
    ),
    (
        Code::InvalidReversePropertyValue,
        "invalid reverse property value",
    ),
    (Code::InvalidSetOrListObject, "invalid set or list object"),
    (Code::InvalidTermDefinition, "invalid term definition"),
    (Code::InvalidTypeMapping, "invalid type mapping"),
    (Code::InvalidTypeValue, "invalid type value"),
    (Code::InvalidTypedValue, "invalid typed value"),
    (Code::InvalidValueObject, "invalid value object"),
    (Code::InvalidValueObjectValue, "invalid value object value"),
    (Code::InvalidVocabMapping, "invalid vocab mapping"),
    (Code::IriConfusedWithPrefix, "IRI confused with prefix"),
    (Code::KeywordRedefinition, "keyword redefinition"),
    (
        Code::LoadingRemoteContextFailed,
        "loading remote context failed",
    ),
    (
        Code::ProtectedTermRedefinition,
        "protected term redefinition",
    ),
    (Code::UnmappedProperty, "unmapped property"),
    (Code::BlankPredicate, "blank predicate"),
    (Code::NotAnAbsoluteIri, "not an absolute IRI"),
    (Code::StrayKeyword, "stray keyword"),
    (Code::LooseValue, "loose value"),
    (Code::NumberNotCarried, "number not carried"),
    (Code::TextNotCarried, "text not carried"),
];

#[test]
fn codes_are_those_of_the_standard(rt: HostRuntime) {
    for row in &CODES {
        let (code, text) = *row;
        assert!(rt; code.text() == text);
    }
}
