//! The tables of RFC 3986, other bases, and every ASCII character.
use iri_ref::{BadAt, IriFault, Parts, Span, is_absolute, parse, resolve, split_at_colon};
use std::test::Fail;

/// RFC 3986, sections 5.4.1 and 5.4.2, the strict form of the last.
const EXAMPLES: [(&str, &str); 42] = [
    ("g:h", "g:h"),
    ("g", "http://a/b/c/g"),
    ("./g", "http://a/b/c/g"),
    ("g/", "http://a/b/c/g/"),
    ("/g", "http://a/g"),
    ("//g", "http://g"),
    ("?y", "http://a/b/c/d;p?y"),
    ("g?y", "http://a/b/c/g?y"),
    ("#s", "http://a/b/c/d;p?q#s"),
    ("g#s", "http://a/b/c/g#s"),
    ("g?y#s", "http://a/b/c/g?y#s"),
    (";x", "http://a/b/c/;x"),
    ("g;x", "http://a/b/c/g;x"),
    ("g;x?y#s", "http://a/b/c/g;x?y#s"),
    ("", "http://a/b/c/d;p?q"),
    (".", "http://a/b/c/"),
    ("./", "http://a/b/c/"),
    ("..", "http://a/b/"),
    ("../", "http://a/b/"),
    ("../g", "http://a/b/g"),
    ("../..", "http://a/"),
    ("../../", "http://a/"),
    ("../../g", "http://a/g"),
    ("../../../g", "http://a/g"),
    ("../../../../g", "http://a/g"),
    ("/./g", "http://a/g"),
    ("/../g", "http://a/g"),
    ("g.", "http://a/b/c/g."),
    (".g", "http://a/b/c/.g"),
    ("g..", "http://a/b/c/g.."),
    ("..g", "http://a/b/c/..g"),
    ("./../g", "http://a/b/g"),
    ("./g/.", "http://a/b/c/g/"),
    ("g/./h", "http://a/b/c/g/h"),
    ("g/../h", "http://a/b/c/h"),
    ("g;x=1/./y", "http://a/b/c/g;x=1/y"),
    ("g;x=1/../y", "http://a/b/c/y"),
    ("g?y/./x", "http://a/b/c/g?y/./x"),
    ("g?y/../x", "http://a/b/c/g?y/../x"),
    ("g#s/./x", "http://a/b/c/g#s/./x"),
    ("g#s/../x", "http://a/b/c/g#s/../x"),
    ("http:g", "http:g"),
];

/// Bases with an authority. A reference never gets the base's fragment (5.2.2); where the base has no
/// path, one that is put in its place is rooted (5.2.3). The last rows have examples of 5.2.4.
const WITH_AUTHORITY: [(&str, &str, &str); 12] = [
    ("http://a/b/c/d;p?q#f", "", "http://a/b/c/d;p?q"),
    ("http://a/b/c/d;p?q#f", "g", "http://a/b/c/g"),
    ("http://a/b/c/d;p?q#f", "?y", "http://a/b/c/d;p?y"),
    ("http://a/b/c/d;p?q#f", "#s", "http://a/b/c/d;p?q#s"),
    ("http://a#f", "", "http://a"),
    ("http://a", "g", "http://a/g"),
    ("http://a?q", "g", "http://a/g"),
    ("http://a", "../g", "http://a/g"),
    ("http://a", "", "http://a"),
    ("http://", "g", "http:///g"),
    ("http://a", "/a/b/c/./../../g", "http://a/a/g"),
    ("http://a/b", "x:mid/content=5/../6", "x:mid/6"),
];

/// Bases without an authority, also without a path: nothing roots what is put in its place (5.2.3).
const WITHOUT_AUTHORITY: [(&str, &str, &str); 10] = [
    ("foo:", "g", "foo:g"),
    ("foo:", "", "foo:"),
    ("foo:?q", "g", "foo:g"),
    ("foo:", "/g", "foo:/g"),
    ("foo:", "//g", "foo://g"),
    ("urn:a/b", "c", "urn:a/c"),
    ("urn:a", "c", "urn:c"),
    ("urn:example:animal", "?y#s", "urn:example:animal?y#s"),
    ("foo:a/b", "./.", "foo:a/"),
    ("foo:a/b", "../..", "foo:/"),
];

const BASE: &str = "http://a/b/c/d;p?q";

#[test]
fn references_mean_what_the_standard_says(rt: HostRuntime) -> Result<(), Fail> {
    for row in &EXAMPLES {
        let (reference, wanted) = *row;
        assert!(rt; is_absolute(BASE));
        let iri = resolve(rt.alloc(), BASE, reference)?;
        assert!(rt; iri.as_str() == wanted, "{reference}");
    }
    let refused = resolve(rt.alloc(), BASE, "a b c");
    assert!(rt; matches!(refused, Err(IriFault::BadIri(1))));
    Ok(())
}

#[test]
fn other_bases(rt: HostRuntime) -> Result<(), Fail> {
    for row in &WITH_AUTHORITY {
        let (base, reference, wanted) = *row;
        assert!(rt; is_absolute(base), "{base}");
        let iri = resolve(rt.alloc(), base, reference)?;
        assert!(rt; iri.as_str() == wanted, "{base} {reference}");
    }
    for row in &WITHOUT_AUTHORITY {
        let (base, reference, wanted) = *row;
        assert!(rt; is_absolute(base), "{base}");
        let iri = resolve(rt.alloc(), base, reference)?;
        assert!(rt; iri.as_str() == wanted, "{base} {reference}");
    }
    Ok(())
}

/// A text, and the bytes of its scheme, authority, path, query and fragment.
type Row = (
    &'static str,
    Option<(u64, u64)>,
    Option<(u64, u64)>,
    (u64, u64),
    Option<(u64, u64)>,
    Option<(u64, u64)>,
);

/// The bytes by the regular expression of RFC 3986, appendix B.
const PARTS: [Row; 20] = [
    // RFC 3986, 1.1.2
    (
        "ftp://ftp.is.co.za/rfc/rfc1808.txt",
        Some((0, 3)),
        Some((6, 18)),
        (18, 34),
        None,
        None,
    ),
    (
        "http://www.ietf.org/rfc/rfc2396.txt",
        Some((0, 4)),
        Some((7, 19)),
        (19, 35),
        None,
        None,
    ),
    (
        "ldap://[2001:db8::7]/c=GB?objectClass?one",
        Some((0, 4)),
        Some((7, 20)),
        (20, 25),
        Some((26, 41)),
        None,
    ),
    (
        "mailto:John.Doe@example.com",
        Some((0, 6)),
        None,
        (7, 27),
        None,
        None,
    ),
    (
        "news:comp.infosystems.www.servers.unix",
        Some((0, 4)),
        None,
        (5, 38),
        None,
        None,
    ),
    (
        "tel:+1-816-555-1212",
        Some((0, 3)),
        None,
        (4, 19),
        None,
        None,
    ),
    (
        "telnet://192.0.2.16:80/",
        Some((0, 6)),
        Some((9, 22)),
        (22, 23),
        None,
        None,
    ),
    (
        "urn:oasis:names:specification:docbook:dtd:xml:4.1.2",
        Some((0, 3)),
        None,
        (4, 51),
        None,
        None,
    ),
    // 3
    (
        "foo://example.com:8042/over/there?name=ferret#nose",
        Some((0, 3)),
        Some((6, 22)),
        (22, 33),
        Some((34, 45)),
        Some((46, 50)),
    ),
    (
        "urn:example:animal:ferret:nose",
        Some((0, 3)),
        None,
        (4, 30),
        None,
        None,
    ),
    // appendix B
    (
        "http://www.ics.uci.edu/pub/ietf/uri/#Related",
        Some((0, 4)),
        Some((7, 22)),
        (22, 36),
        None,
        Some((37, 44)),
    ),
    // a component that is empty differs from one that is not there
    ("", None, None, (0, 0), None, None),
    ("//", None, Some((2, 2)), (2, 2), None, None),
    ("?", None, None, (0, 0), Some((1, 1)), None),
    ("#", None, None, (0, 0), None, Some((1, 1))),
    ("a:", Some((0, 1)), None, (2, 2), None, None),
    (
        "a:?#",
        Some((0, 1)),
        None,
        (2, 2),
        Some((3, 3)),
        Some((4, 4)),
    ),
    (
        "a://?#",
        Some((0, 1)),
        Some((4, 4)),
        (4, 4),
        Some((5, 5)),
        Some((6, 6)),
    ),
    ("/a:b", None, None, (0, 4), None, None),
    (
        "//a?b/c#d?e",
        None,
        Some((2, 3)),
        (3, 3),
        Some((4, 7)),
        Some((8, 11)),
    ),
];

fn span(ends: (u64, u64)) -> Span {
    Span {
        from: ends.0,
        to: ends.1,
    }
}

fn some_span(ends: Option<(u64, u64)>) -> Option<Span> {
    match ends {
        Some(ends) => Some(span(ends)),
        None => None,
    }
}

#[test]
fn texts_have_the_components_of_the_standard(rt: HostRuntime) {
    for row in &PARTS {
        let (text, scheme, authority, path, query, fragment) = *row;
        let wanted = Parts {
            scheme: some_span(scheme),
            authority: some_span(authority),
            path: span(path),
            query: some_span(query),
            fragment: some_span(fragment),
        };
        assert!(rt; parse(text) == Ok(wanted), "{text}");
    }
    // no scheme by the grammar of 3.1, where the regular expression has one
    let path_alone = Parts {
        scheme: None,
        authority: None,
        path: span((0, 4)),
        query: None,
        fragment: None,
    };
    assert!(rt; parse("1a:b") == Ok(path_alone));
    for (text, absolute) in [
        ("a+1.-:", true),
        ("1a:b", false),
        (":b", false),
        ("a/b:c", false),
        ("a?b:c", false),
        ("a:b c", false),
        ("a", false),
        ("", false),
        ("é:b", false),
    ] {
        assert!(rt; is_absolute(text) == absolute, "{text}");
    }
    for (text, parts) in [
        ("", None),
        ("a", None),
        (":", None),
        (":a", None),
        ("a:", Some(("a", ""))),
        ("a:b", Some(("a", "b"))),
        ("a:b:c", Some(("a", "b:c"))),
        ("::", Some((":", ""))),
        (":a:b", Some((":a", "b"))),
        ("_:b0", Some(("_", "b0"))),
        ("http://a", Some(("http", "//a"))),
        ("é:é", Some(("é", "é"))),
    ] {
        assert!(rt; split_at_colon(text) == parts, "{text}");
    }
}

/// What no IRI holds, from U+0021 on: RDF 1.1 N-Quads, 4, IRIREF.
const FORBIDDEN: &str = "<>\"{}|^`\\";

/// ALPHA, and what else stands in a scheme behind its first letter: RFC 3986, 3.1.
const ALPHA: &str = "ABCDEFGHIJKLMNOPQRSTUVWXYZabcdefghijklmnopqrstuvwxyz";

const OTHERS_IN_SCHEME: &str = "0123456789+-.";

/// Each ASCII character, within an IRI, within a scheme and at the front of one.
#[test]
fn characters_are_those_of_the_standard(rt: HostRuntime) -> Result<(), Fail> {
    for code in 0..128u8 {
        let character = code as char;
        let forbidden = code <= 32 || FORBIDDEN.contains(character);
        let within = format!(in rt.alloc(); "a/{character}é")?;
        let refused = parse(within.as_str()) == Err(BadAt { at: 2 });
        assert!(rt; refused == forbidden, "{code}");
        assert!(rt; parse(within.as_str()).is_ok() != forbidden, "{code}");
        let letter = ALPHA.contains(character);
        let front = format!(in rt.alloc(); "{character}:b")?;
        assert!(rt; is_absolute(front.as_str()) == letter, "{code}");
        let second = format!(in rt.alloc(); "a{character}:b")?;
        // `a::b` has the scheme `a`
        let scheme = letter || OTHERS_IN_SCHEME.contains(character) || character == ':';
        assert!(rt; is_absolute(second.as_str()) == scheme, "{code}");
    }
    Ok(())
}

#[test]
fn refusals_say_where(rt: HostRuntime) -> Result<(), Fail> {
    let line = "no IRI holds the character at byte 3";
    let bad = BadAt { at: 3 };
    assert_eq!(rt; format!(in rt.alloc(); "{bad}")?.as_str(), line);
    let fault = IriFault::BadIri(3);
    assert_eq!(rt; format!(in rt.alloc(); "{fault}")?.as_str(), line);
    let memory = IriFault::Memory;
    assert_eq!(rt;
        format!(in rt.alloc(); "{memory}")?.as_str(),
        "out of memory"
    );
    Ok(())
}
