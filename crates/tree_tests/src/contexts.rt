//! Readings by JSON-LD 1.1 API, section 5.2.2, each worked by hand, and what becomes of definitions and
//! of previous contexts.

use ld_termdef::{
    ActiveContext, BaseIri, Containers, ContextParts, Definitions, Mapped, Mode, ReadIri, Sequence,
    Setting, Shared, TermDef, TermEntry, Text, expand_iri,
};
use ld_words::keyword;
use std::alloc::Global;
use std::test::Fail;

/// A vocabulary, and a base. RFC 3986, section 5.4.
const V: &str = "https://ex.org/v#";

const BASE: &str = "http://a/b/c/d;p?q";

/// The terms of `READINGS`: what each maps to, where nothing is the empty text, and whether it may be
/// a prefix.
const TERMS: [(&str, &str, bool); 8] = [
    ("name", "https://schema.org/name", false),
    ("type", "@type", true),
    ("gone", "", true),
    ("ex", "https://ex.org/", true),
    ("site", "https://ex.org/", false),
    ("_", "https://ex.org/_/", true),
    ("zero", "", true),
    ("ex:gone", "", false),
];

/// A text, the mode in which it is read with these terms, `V` and `BASE`, and its reading.
const READINGS: [(&str, Mode, &str); 45] = [
    ("@type", Mode::Document, "keyword @type"),
    ("@none", Mode::Vocab, "keyword @none"),
    ("@foo", Mode::Both, "nothing"),
    ("@", Mode::Vocab, "iri https://ex.org/v#@"),
    ("@foo1", Mode::Vocab, "iri https://ex.org/v#@foo1"),
    ("@FOO", Mode::Vocab, "nothing"),
    ("@x", Mode::Vocab, "nothing"),
    ("@a_b", Mode::Vocab, "iri https://ex.org/v#@a_b"),
    ("@Type", Mode::Document, "nothing"),
    ("type", Mode::Document, "keyword @type"),
    ("type", Mode::Vocab, "keyword @type"),
    ("name", Mode::Vocab, "iri https://schema.org/name"),
    ("name", Mode::Both, "iri https://schema.org/name"),
    ("name", Mode::Document, "iri http://a/b/c/name"),
    ("gone", Mode::Vocab, "nothing"),
    ("gone", Mode::Both, "nothing"),
    ("gone", Mode::Document, "iri http://a/b/c/gone"),
    ("_:b0", Mode::Document, "blank b0"),
    ("_:", Mode::Vocab, "blank "),
    ("_:b://x", Mode::Vocab, "blank b://x"),
    ("_://x", Mode::Vocab, "blank //x"),
    ("ex:x", Mode::Document, "iri https://ex.org/x"),
    ("ex:x", Mode::Vocab, "iri https://ex.org/x"),
    ("ex:x:y", Mode::Vocab, "iri https://ex.org/x:y"),
    ("ex:", Mode::Vocab, "iri https://ex.org/"),
    ("ex://x", Mode::Vocab, "iri ex://x"),
    ("site:x", Mode::Vocab, "iri site:x"),
    ("gone:x", Mode::Vocab, "iri gone:x"),
    ("zero:x", Mode::Vocab, "iri zero:x"),
    ("type:x", Mode::Vocab, "iri type:x"),
    ("ex:gone", Mode::Vocab, "nothing"),
    ("ex:gone", Mode::Both, "nothing"),
    ("ex:gone", Mode::Document, "iri https://ex.org/gone"),
    ("ex:gone:x", Mode::Vocab, "iri https://ex.org/gone:x"),
    ("urn:x", Mode::Document, "iri urn:x"),
    ("a b://x", Mode::Vocab, "iri a b://x"),
    ("1a:b", Mode::Vocab, "iri https://ex.org/v#1a:b"),
    ("1a:b", Mode::Document, "iri http://a/b/c/1a:b"),
    (":a", Mode::Vocab, "iri https://ex.org/v#:a"),
    ("x", Mode::Both, "iri https://ex.org/v#x"),
    ("", Mode::Both, "iri https://ex.org/v#"),
    ("a b", Mode::Vocab, "iri https://ex.org/v#a b"),
    ("../g", Mode::Document, "iri http://a/b/g"),
    ("", Mode::Document, "iri http://a/b/c/d;p?q"),
    ("a b", Mode::Document, "relative a b"),
];

/// A text, the mode in which it is read where there is a base and no vocabulary, and its reading.
const WITH_BASE: [(&str, Mode, &str); 6] = [
    ("x", Mode::Document, "iri http://a/b/c/x"),
    ("x", Mode::Both, "iri http://a/b/c/x"),
    ("x", Mode::Vocab, "relative x"),
    ("1a:b", Mode::Vocab, "relative 1a:b"),
    ("", Mode::Both, "iri http://a/b/c/d;p?q"),
    ("a b", Mode::Both, "relative a b"),
];

/// What a row says that a term maps to.
fn mapped_by(alloc: Global, text: &str) -> Result<Mapped, Fail> {
    if text.is_empty() {
        return Ok(Mapped::Nothing);
    }
    match keyword(text) {
        Some(word) => Ok(Mapped::Word(word)),
        None => Ok(Mapped::Iri(Text::from_str(alloc, text)?)),
    }
}

/// The definitions with this term laid over them.
fn with_term(
    alloc: Global,
    terms: &Definitions,
    term: &str,
    mapped: &str,
    prefix: bool,
    protected: bool,
) -> Result<Definitions, Fail> {
    let term = Text::from_str(alloc, term)?;
    let mapped = mapped_by(alloc, mapped)?;
    let def = TermDef {
        mapped,
        prefix,
        protected,
        reverse: false,
        kind: None,
        language: Setting::Absent,
        direction: Setting::Absent,
        containers: Containers {
            list: false,
            set: false,
            language: false,
            index: false,
            id: false,
            kind: false,
            graph: false,
        },
        scoped: None,
        nest: None,
        index: None,
    };
    let mut more = Sequence::new(alloc);
    more.push(TermEntry { term, def })?;
    Ok(terms.overlay(alloc, more)?)
}

/// The text, if it is not empty.
fn text_or_none(alloc: Global, text: &str) -> Result<Option<Text>, Fail> {
    if text.is_empty() {
        return Ok(None);
    }
    Ok(Some(Text::from_str(alloc, text)?))
}

/// A context with these definitions, a base and a vocabulary, where these are not empty.
fn context_with(
    alloc: Global,
    base: &str,
    vocab: &str,
    terms: Definitions,
) -> Result<ActiveContext, Fail> {
    let base = BaseIri::new(Text::from_str(alloc, base)?);
    let vocab = text_or_none(alloc, vocab)?;
    let parts = ContextParts {
        base,
        vocab,
        language: None,
        direction: None,
        terms,
    };
    let current = Shared::new(alloc, parts)?;
    Ok(ActiveContext {
        current,
        previous: Sequence::new(alloc),
    })
}

/// What a reading is, in words.
fn reading(alloc: Global, read: &ReadIri) -> Result<String, Fail> {
    Ok(match read {
        ReadIri::Nothing => String::from_str(alloc, "nothing")?,
        ReadIri::Word(word) => format!(in alloc; "keyword {}", word.text())?,
        ReadIri::Iri(iri) => format!(in alloc; "iri {}", iri.as_str())?,
        ReadIri::Blank(label) => format!(in alloc; "blank {}", label.as_str())?,
        ReadIri::Relative(text) => format!(in alloc; "relative {}", text.as_str())?,
    })
}

/// The first row whose text reads otherwise.
fn first_wrong(
    alloc: Global,
    active: &ActiveContext,
    rows: &[(&str, Mode, &str)],
) -> Result<Option<usize>, Fail> {
    for (number, (text, mode, want)) in rows.iter().enumerate() {
        let read = expand_iri(alloc, active, text, *mode)?;
        if reading(alloc, &read)?.as_str() != *want {
            return Ok(Some(number));
        }
    }
    Ok(None)
}

/// The definitions of `TERMS`.
fn terms_of_rows(alloc: Global) -> Result<Definitions, Fail> {
    let mut terms = Definitions::new(alloc)?;
    for (term, mapped, prefix) in &TERMS {
        terms = with_term(alloc, &terms, term, mapped, *prefix, false)?;
    }
    Ok(terms)
}

/// The first row of `READINGS` that reads otherwise.
fn first_wrong_reading(alloc: Global) -> Result<Option<usize>, Fail> {
    let active = context_with(alloc, BASE, V, terms_of_rows(alloc)?)?;
    first_wrong(alloc, &active, &READINGS)
}

/// The first row of `WITH_BASE` that reads otherwise.
fn first_wrong_with_base(alloc: Global) -> Result<Option<usize>, Fail> {
    let active = context_with(alloc, BASE, "", Definitions::new(alloc)?)?;
    first_wrong(alloc, &active, &WITH_BASE)
}

#[test]
fn texts_read_by_the_first_row_that_applies(rt: HostRuntime) -> Result<(), Fail> {
    assert_eq!(rt; first_wrong_reading(rt.alloc())?, None);
    assert_eq!(rt; first_wrong_with_base(rt.alloc())?, None);
    Ok(())
}

/// What a term maps to, in words.
fn meaning<'a>(active: &'a ActiveContext, term: &str) -> &'a str {
    match active.definition(term) {
        None => "none",
        Some(definition) => match &definition.mapped {
            Mapped::Nothing => "nothing",
            Mapped::Word(word) => word.text(),
            Mapped::Iri(iri) => iri.as_str(),
        },
    }
}

/// Letters in no order, so that each layer is put together again and again.
const LETTERS: [&str; 26] = [
    "m", "c", "x", "a", "z", "k", "q", "b", "y", "d", "w", "e", "v", "f", "u", "g", "t", "h", "s",
    "i", "r", "j", "p", "l", "o", "n",
];

/// These definitions with each letter laid over them.
fn with_letters(alloc: Global, terms: &Definitions, text: &str) -> Result<Definitions, Fail> {
    let mut whole = terms.share()?;
    for letter in &LETTERS {
        whole = with_term(alloc, &whole, letter, text, false, false)?;
    }
    Ok(whole)
}

/// A context that defines each letter twice.
fn twice(alloc: Global) -> Result<ActiveContext, Fail> {
    let first = with_letters(alloc, &Definitions::new(alloc)?, "urn:first")?;
    let second = with_letters(alloc, &first, "urn:second")?;
    context_with(alloc, "", "", second)
}

/// The first letter that has another meaning than the later one, or what `aa` means.
fn first_with_another_meaning(alloc: Global) -> Result<&'static str, Fail> {
    let active = twice(alloc)?;
    for letter in &LETTERS {
        if meaning(&active, letter) != "urn:second" {
            return Ok(letter);
        }
    }
    if meaning(&active, "aa") != "none" {
        return Ok("aa");
    }
    Ok("")
}

#[test]
fn the_later_definition_counts(rt: HostRuntime) -> Result<(), Fail> {
    assert_eq!(rt; first_with_another_meaning(rt.alloc())?, "");
    Ok(())
}

/// A context that defines a letter, and then defines it again, with these protected flags.
fn guarded(alloc: Global, first: bool, second: bool) -> Result<ActiveContext, Fail> {
    let letters = with_letters(alloc, &Definitions::new(alloc)?, "urn:first")?;
    let once = with_term(alloc, &letters, "g", "", false, first)?;
    let again = with_term(alloc, &once, "g", "", false, second)?;
    context_with(alloc, "", "", again)
}

/// Whether such a context protects a term.
fn protects(alloc: Global, first: bool, second: bool) -> Result<bool, Fail> {
    Ok(guarded(alloc, first, second)?.has_protected())
}

#[test]
fn a_protected_term_counts_until_it_is_hidden(rt: HostRuntime) -> Result<(), Fail> {
    assert!(rt; !protects(rt.alloc(), false, false)?);
    assert!(rt; !protects(rt.alloc(), true, false)?);
    assert!(rt; protects(rt.alloc(), false, true)?);
    assert!(rt; protects(rt.alloc(), true, true)?);
    Ok(())
}

/// A context that was processed on another one, and defines `a`.
fn deepened(
    alloc: Global,
    before: ActiveContext,
    name: &str,
    propagate: bool,
) -> Result<ActiveContext, Fail> {
    let none = Definitions::new(alloc)?;
    let terms = with_term(alloc, &none, "a", name, false, false)?;
    let context = context_with(alloc, "", "", terms)?;
    Ok(context.remember(before, propagate)?)
}

/// What `a` maps to so many steps back from the third of three contexts; the second and the third
/// propagate, or do not.
fn steps_back(alloc: Global, second: bool, third: bool, steps: usize) -> Result<String, Fail> {
    let one = deepened(alloc, ActiveContext::initial(alloc)?, "urn:one", true)?;
    let two = deepened(alloc, one, "urn:two", second)?;
    let mut here = deepened(alloc, two, "urn:three", third)?;
    for _ in 0..steps {
        here = here.previous(alloc)?;
    }
    Ok(String::from_str(alloc, meaning(&here, "a"))?)
}

/// Whether the second and the third context propagate, the steps back, and what `a` maps to there.
const STEPS_BACK: [(bool, bool, usize, &str); 7] = [
    (false, false, 0, "urn:three"),
    (false, false, 1, "urn:two"),
    (false, false, 2, "urn:one"),
    (false, false, 3, "urn:one"),
    (true, false, 1, "urn:two"),
    (true, false, 2, "urn:two"),
    (true, true, 1, "urn:three"),
];

/// The first of these rows where `a` maps to something else, if there is one.
fn first_wrong_step(alloc: Global) -> Result<Option<usize>, Fail> {
    for (number, (second, third, steps, want)) in STEPS_BACK.iter().enumerate() {
        if steps_back(alloc, *second, *third, *steps)?.as_str() != *want {
            return Ok(Some(number));
        }
    }
    Ok(None)
}

#[test]
fn contexts_that_do_not_propagate_return(rt: HostRuntime) -> Result<(), Fail> {
    assert_eq!(rt; first_wrong_step(rt.alloc())?, None);
    Ok(())
}
