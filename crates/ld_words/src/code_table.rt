//! The codes of errors, of JSON-LD 1.1 API, 9.6 (JsonLdErrorCode), and our own.
ghost use Rattle.std.specs.Prelude.{◌≡◌};
ghost use Rattle.ld_words.specs.Spellings.{code_text};

/// An error code: those of JSON-LD 1.1 API (section 9.6, JsonLdErrorCode) that reading a document
/// can give, and from `UnmappedProperty` on our own, for what is refused here and is no error there.
#[derive(Clone, Copy, Debug, PartialEq, Eq)]
pub enum Code {
    /// `invalid context nullification`
    InvalidContextNullification,
    /// `loading remote context failed`
    LoadingRemoteContextFailed,
    /// `invalid remote context`
    InvalidRemoteContext,
    /// `context overflow`
    ContextOverflow,
    /// `invalid local context`
    InvalidLocalContext,
    /// `invalid @version value`
    InvalidVersionValue,
    /// `invalid @import value`
    InvalidImportValue,
    /// `invalid context entry`
    InvalidContextEntry,
    /// `invalid base IRI`
    InvalidBaseIri,
    /// `invalid vocab mapping`
    InvalidVocabMapping,
    /// `invalid default language`
    InvalidDefaultLanguage,
    /// `invalid base direction`
    InvalidBaseDirection,
    /// `invalid @propagate value`
    InvalidPropagateValue,
    /// `invalid @protected value`
    InvalidProtectedValue,
    /// `cyclic IRI mapping`
    CyclicIriMapping,
    /// `invalid term definition`
    InvalidTermDefinition,
    /// `keyword redefinition`
    KeywordRedefinition,
    /// `invalid IRI mapping`
    InvalidIriMapping,
    /// `invalid reverse property`
    InvalidReverseProperty,
    /// `invalid keyword alias`
    InvalidKeywordAlias,
    /// `invalid @prefix value`
    InvalidPrefixValue,
    /// `invalid type mapping`
    InvalidTypeMapping,
    /// `invalid container mapping`
    InvalidContainerMapping,
    /// `invalid language mapping`
    InvalidLanguageMapping,
    /// `invalid @nest value`
    InvalidNestValue,
    /// `protected term redefinition`
    ProtectedTermRedefinition,
    /// `colliding keywords`
    CollidingKeywords,
    /// `invalid @id value`
    InvalidIdValue,
    /// `invalid type value`
    InvalidTypeValue,
    /// `invalid @index value`
    InvalidIndexValue,
    /// `invalid @included value`
    InvalidIncludedValue,
    /// `invalid @reverse value`
    InvalidReverseValue,
    /// `invalid reverse property map`
    InvalidReversePropertyMap,
    /// `invalid value object`
    InvalidValueObject,
    /// `invalid reverse property value`
    InvalidReversePropertyValue,
    /// `invalid set or list object`
    InvalidSetOrListObject,
    /// `invalid language map value`
    InvalidLanguageMapValue,
    /// `invalid language-tagged string`
    InvalidLanguageTaggedString,
    /// `invalid typed value`
    InvalidTypedValue,
    /// `invalid value object value`
    InvalidValueObjectValue,
    /// `invalid language-tagged value`
    InvalidLanguageTaggedValue,
    /// `IRI confused with prefix`
    IriConfusedWithPrefix,
    /// `unmapped property`
    UnmappedProperty,
    /// `blank predicate`
    BlankPredicate,
    /// `not an absolute IRI`
    NotAnAbsoluteIri,
    /// `stray keyword`
    StrayKeyword,
    /// `loose value`
    LooseValue,
    /// `number not carried`
    NumberNotCarried,
    /// `text not carried`
    TextNotCarried,
}

impl Code {
    /// The code's spelling.
    pub fn text(self) -> &'static str
        ensures { result.now ≡ code_text self }
    {
        match self {
            Code::InvalidContextNullification => "invalid context nullification",
            Code::LoadingRemoteContextFailed => "loading remote context failed",
            Code::InvalidRemoteContext => "invalid remote context",
            Code::ContextOverflow => "context overflow",
            Code::InvalidLocalContext => "invalid local context",
            Code::InvalidVersionValue => "invalid @version value",
            Code::InvalidImportValue => "invalid @import value",
            Code::InvalidContextEntry => "invalid context entry",
            Code::InvalidBaseIri => "invalid base IRI",
            Code::InvalidVocabMapping => "invalid vocab mapping",
            Code::InvalidDefaultLanguage => "invalid default language",
            Code::InvalidBaseDirection => "invalid base direction",
            Code::InvalidPropagateValue => "invalid @propagate value",
            Code::InvalidProtectedValue => "invalid @protected value",
            Code::CyclicIriMapping => "cyclic IRI mapping",
            Code::InvalidTermDefinition => "invalid term definition",
            Code::KeywordRedefinition => "keyword redefinition",
            Code::InvalidIriMapping => "invalid IRI mapping",
            Code::InvalidReverseProperty => "invalid reverse property",
            Code::InvalidKeywordAlias => "invalid keyword alias",
            Code::InvalidPrefixValue => "invalid @prefix value",
            Code::InvalidTypeMapping => "invalid type mapping",
            Code::InvalidContainerMapping => "invalid container mapping",
            Code::InvalidLanguageMapping => "invalid language mapping",
            Code::InvalidNestValue => "invalid @nest value",
            Code::ProtectedTermRedefinition => "protected term redefinition",
            Code::CollidingKeywords => "colliding keywords",
            Code::InvalidIdValue => "invalid @id value",
            Code::InvalidTypeValue => "invalid type value",
            Code::InvalidIndexValue => "invalid @index value",
            Code::InvalidIncludedValue => "invalid @included value",
            Code::InvalidReverseValue => "invalid @reverse value",
            Code::InvalidReversePropertyMap => "invalid reverse property map",
            Code::InvalidValueObject => "invalid value object",
            Code::InvalidReversePropertyValue => "invalid reverse property value",
            Code::InvalidSetOrListObject => "invalid set or list object",
            Code::InvalidLanguageMapValue => "invalid language map value",
            Code::InvalidLanguageTaggedString => "invalid language-tagged string",
            Code::InvalidTypedValue => "invalid typed value",
            Code::InvalidValueObjectValue => "invalid value object value",
            Code::InvalidLanguageTaggedValue => "invalid language-tagged value",
            Code::IriConfusedWithPrefix => "IRI confused with prefix",
            Code::UnmappedProperty => "unmapped property",
            Code::BlankPredicate => "blank predicate",
            Code::NotAnAbsoluteIri => "not an absolute IRI",
            Code::StrayKeyword => "stray keyword",
            Code::LooseValue => "loose value",
            Code::NumberNotCarried => "number not carried",
            Code::TextNotCarried => "text not carried",
        }
    }
}
