//! Requests and the statements that their documents mean, by hand from JSON-LD 1.1.
use json_tree::{TreeFault, read};
use ld_rdf::{FlatFault, Text, flat, flat_document, flat_lines, flat_options};
use nquads::{TextQuad, TextQuads, join};
use std::alloc::Global;
use std::test::Fail;

/// A flat request whose document has one property.
const ANN: &[u8] =
    br#"{"contexts":{"https://ex.org/n":{"@context":{"name":"https://schema.org/name"}}},"document":{"@context":"https://ex.org/n","@id":"https://ex.org/a","name":"Ann"}}"#;

/// Two terms of one IRI with equal texts, and no property at all.
const REPEATED: &[u8] =
    br#"{"contexts":{"c":{"@context":{"called":"https://schema.org/name","name":"https://schema.org/name"}}},"document":{"@context":"c","@id":"https://ex.org/a","called":"Ann","name":"Ann"}}"#;

const EMPTY: &[u8] =
    br#"{"contexts":{"c":{"@context":{}}},"document":{"@context":"c","@id":"https://"}}"#;

/// The first request with each check failing in turn.
const NOT_FLAT: [&[u8]; 24] = [
    b"[]",
    br#"{"contexts":{"c":{"@context":{"n":"https://e/n"}}}}"#,
    br#"{"contexts":{"c":{"@context":{"n":"https://e/n"}}},"document":{"@context":"c","@id":"https://e/a"},"more":1}"#,
    br#"{"contexts":{"c":{"@context":{"n":"https://e/n"}}},"documents":{"@context":"c","@id":"https://e/a"}}"#,
    br#"{"contexts":"c","document":{"@context":"c","@id":"https://e/a"}}"#,
    br#"{"contexts":{},"document":{"@context":"c","@id":"https://e/a"}}"#,
    br#"{"contexts":{"c":{"@context":{}},"d":{"@context":{}}},"document":{"@context":"c","@id":"https://e/a"}}"#,
    br#"{"contexts":{"c":{"@context":{},"x":1}},"document":{"@context":"c","@id":"https://e/a"}}"#,
    br#"{"contexts":{"c":{"context":{}}},"document":{"@context":"c","@id":"https://e/a"}}"#,
    br#"{"contexts":{"c":{"@context":[]}},"document":{"@context":"c","@id":"https://e/a"}}"#,
    br#"{"contexts":{"c":{"@context":{"":"https://e/n"}}},"document":{"@context":"c","@id":"https://e/a"}}"#,
    br#"{"contexts":{"c":{"@context":{"@n":"https://e/n"}}},"document":{"@context":"c","@id":"https://e/a"}}"#,
    br#"{"contexts":{"c":{"@context":{"n:n":"https://e/n"}}},"document":{"@context":"c","@id":"https://e/a"}}"#,
    br#"{"contexts":{"c":{"@context":{"n/n":"https://e/n"}}},"document":{"@context":"c","@id":"https://e/a"}}"#,
    br#"{"contexts":{"c":{"@context":{"n":"http://e/n"}}},"document":{"@context":"c","@id":"https://e/a"}}"#,
    br#"{"contexts":{"c":{"@context":{"n":"https://e/n?q"}}},"document":{"@context":"c","@id":"https://e/a"}}"#,
    br#"{"contexts":{"c":{"@context":{"n":1}}},"document":{"@context":"c","@id":"https://e/a"}}"#,
    br#"{"contexts":{"c":{"@context":{"n":"https://e/n"}}},"document":[]}"#,
    br#"{"contexts":{"c":{"@context":{"n":"https://e/n"}}},"document":{"@context":"c","n":"x"}}"#,
    br#"{"contexts":{"c":{"@context":{"n":"https://e/n"}}},"document":{"@context":"c","@id":"e/a"}}"#,
    br#"{"contexts":{"c":{"@context":{"n":"https://e/n"}}},"document":{"@context":"d","@id":"https://e/a"}}"#,
    br#"{"contexts":{"c":{"@context":{"n":"https://e/n"}}},"document":{"@context":"c","@id":"https://e/a","m":"x"}}"#,
    br#"{"contexts":{"c":{"@context":{"n":"https://e/n"}}},"document":{"@context":"c","@id":"https://e/a","age":3,"n":"x"}}"#,
    br#"{"contexts":{"c":{"@context":{"n":"https://e/n"}}},"document":{"@context":"c","@id":"https://e/a","n":"x\uffff"}}"#,
];

/// The statements of a request.
fn quads_of(alloc: Global, request: &[u8]) -> Result<TextQuads, Fail> {
    Ok(flat(alloc, &read(alloc, request)?)?)
}

/// Whether these are the one statement of the first request.
fn are_ann(quads: &[TextQuad]) -> bool {
    match quads {
        [quad] => {
            quad.subject.as_str() == "<https://ex.org/a>"
                && quad.predicate.as_str() == "<https://schema.org/name>"
                && quad.object.as_str() == "\"Ann\""
                && quad.graph.is_none()
        }
        _ => false,
    }
}

#[test]
fn a_property_is_one_statement(rt: HostRuntime) -> Result<(), Fail> {
    assert!(rt; are_ann(quads_of(rt.alloc(), ANN)?.as_slice()));
    assert_eq!(rt; quads_of(rt.alloc(), REPEATED)?.len(), 1);
    assert_eq!(rt; quads_of(rt.alloc(), EMPTY)?.len(), 0);
    Ok(())
}

/// Whether neither the statements nor the lines of a request are built, since it is not flat.
fn is_not_built(alloc: Global, request: &[u8]) -> Result<bool, TreeFault> {
    let tree = read(alloc, request)?;
    Ok(
        flat(alloc, &tree).err() == Some(FlatFault::NotBuilt)
            && flat_lines(alloc, &tree).err() == Some(FlatFault::NotBuilt),
    )
}

/// The first of the requests that are not flat that is built, if there is one.
fn first_built(alloc: Global) -> Result<Option<usize>, TreeFault> {
    for (number, request) in NOT_FLAT.iter().enumerate() {
        if !is_not_built(alloc, request)? {
            return Ok(Some(number));
        }
    }
    Ok(None)
}

#[test]
fn a_request_that_is_not_flat_is_not_built(rt: HostRuntime) -> Result<(), Fail> {
    assert_eq!(rt; first_built(rt.alloc())?, None);
    Ok(())
}

/// Two properties whose names stand in another order than the IRIs that they stand for.
const OUT_OF_ORDER: &[u8] =
    br#"{"contexts":{"c":{"@context":{"m":"https://e/z","n":"https://e/y"}}},"document":{"@context":"c","@id":"https://e/a","m":"1","n":"2\""}}"#;

/// Requests and their lines, by hand from N-Quads and its canonical form.
const LINES: [(&[u8], &str); 4] = [
    (
        ANN,
        "<https://ex.org/a> <https://schema.org/name> \"Ann\" .\n",
    ),
    (
        REPEATED,
        "<https://ex.org/a> <https://schema.org/name> \"Ann\" .\n",
    ),
    (EMPTY, ""),
    (
        OUT_OF_ORDER,
        "<https://e/a> <https://e/y> \"2\\\"\" .\n<https://e/a> <https://e/z> \"1\" .\n",
    ),
];

/// The lines of a request, one after another.
fn lines_of(alloc: Global, request: &[u8]) -> Result<Vec<u8>, Fail> {
    let lines = flat_lines(alloc, &read(alloc, request)?)?;
    Ok(join(alloc, lines.as_slice())?)
}

/// The first request that has other lines, if there is one.
fn first_with_other_lines(alloc: Global) -> Result<Option<usize>, Fail> {
    for (number, (request, text)) in LINES.iter().enumerate() {
        if lines_of(alloc, request)?.as_slice() != text.as_bytes() {
            return Ok(Some(number));
        }
    }
    Ok(None)
}

#[test]
fn lines_stand_in_order_each_once(rt: HostRuntime) -> Result<(), Fail> {
    assert_eq!(rt; first_with_other_lines(rt.alloc())?, None);
    Ok(())
}

/// One supplied context, of one term.
const CONTEXTS: &[u8] = br#"{"c":{"@context":{"name":"https://schema.org/name"}}}"#;

/// Documents, the member that is left out, and how many statements there are, if it is built.
const DOCUMENTS: [(&[u8], &str, Option<usize>); 10] = [
    (
        br#"{"@context":"c","@id":"https://ex.org/a","name":"Ann","proof":{"type":"x"}}"#,
        "proof",
        Some(1),
    ),
    (
        br#"{"@context":"c","@id":"https://ex.org/a","name":"Ann","proof":{"type":"x"}}"#,
        "",
        None,
    ),
    (
        br#"{"@context":"c","@id":"https://ex.org/a","name":"Ann"}"#,
        "",
        Some(1),
    ),
    (
        br#"{"@context":"c","@id":"https://ex.org/a","name":"Ann"}"#,
        "name",
        Some(0),
    ),
    (
        br#"{"@context":"c","@id":"https://ex.org/a","name":"Ann"}"#,
        "@context",
        None,
    ),
    (
        br#"{"@context":"c","@id":"https://ex.org/a","name":"Ann"}"#,
        "@id",
        None,
    ),
    (
        br#"{"@context":"c","@id":"https://ex.org/a","age":"3","proof":1}"#,
        "proof",
        None,
    ),
    (
        br#"{"@context":"d","@id":"https://ex.org/a","proof":1}"#,
        "proof",
        None,
    ),
    (
        br#"{"@context":"c","@id":"https://ex.org/a","":"x","proof":1}"#,
        "proof",
        None,
    ),
    (b"[]", "proof", None),
];

/// Options, the name of the context that they take, the member that is left out, and how many
/// statements there are, if they are built.
const OPTIONS: [(&[u8], &str, &str, Option<usize>); 10] = [
    (
        br#"{"@id":"https://ex.org/a","name":"Ann","proofValue":"u"}"#,
        "c",
        "proofValue",
        Some(1),
    ),
    (
        br#"{"@context":"d","@id":"https://ex.org/a","name":"Ann","proofValue":"u"}"#,
        "c",
        "proofValue",
        Some(1),
    ),
    (
        br#"{"@context":{},"@id":"https://ex.org/a","name":"Ann"}"#,
        "c",
        "",
        Some(1),
    ),
    (
        br#"{"@context":"c","@id":"https://ex.org/a","name":"Ann"}"#,
        "c",
        "@context",
        Some(1),
    ),
    (
        br#"{"@context":"c","@id":"https://ex.org/a","name":"Ann"}"#,
        "d",
        "",
        None,
    ),
    (
        br#"{"@id":"https://ex.org/a","name":"Ann","proofValue":"u"}"#,
        "c",
        "",
        None,
    ),
    (
        br#"{"@id":"https://ex.org/a","age":"3","proofValue":"u"}"#,
        "c",
        "proofValue",
        None,
    ),
    (
        br#"{"@id":"https://ex.org/a","name":"Ann"}"#,
        "c",
        "name",
        Some(0),
    ),
    (br#"{"name":"Ann"}"#, "c", "", None),
    (b"3", "c", "", None),
];

/// Whether the answer has this many statements, or is `NotBuilt` where none are expected.
fn is_expected(answer: Result<TextQuads, FlatFault>, expected: Option<usize>) -> bool {
    match answer {
        Ok(quads) => expected == Some(quads.len()),
        Err(fault) => fault == FlatFault::NotBuilt && expected.is_none(),
    }
}

fn document_is(
    alloc: Global,
    bytes: &[u8],
    besides: &str,
    expected: Option<usize>,
) -> Result<bool, TreeFault> {
    let contexts = read(alloc, CONTEXTS)?;
    let document = read(alloc, bytes)?;
    Ok(is_expected(
        flat_document(alloc, &contexts, &document, besides),
        expected,
    ))
}

fn options_are(
    alloc: Global,
    bytes: &[u8],
    name: &str,
    besides: &str,
    expected: Option<usize>,
) -> Result<bool, TreeFault> {
    let contexts = read(alloc, CONTEXTS)?;
    let context = Text::from_str(alloc, name)?;
    let options = read(alloc, bytes)?;
    Ok(is_expected(
        flat_options(alloc, &contexts, &context, &options, besides),
        expected,
    ))
}

/// The first document that has another number of statements, if there is one.
fn first_wrong_document(alloc: Global) -> Result<Option<usize>, TreeFault> {
    for (number, (bytes, besides, expected)) in DOCUMENTS.iter().enumerate() {
        if !document_is(alloc, bytes, besides, *expected)? {
            return Ok(Some(number));
        }
    }
    Ok(None)
}

/// The first options that have another number of statements, if there are any.
fn first_wrong_options(alloc: Global) -> Result<Option<usize>, TreeFault> {
    for (number, (bytes, name, besides, expected)) in OPTIONS.iter().enumerate() {
        if !options_are(alloc, bytes, name, besides, *expected)? {
            return Ok(Some(number));
        }
    }
    Ok(None)
}

#[test]
fn a_document_is_read_without_a_member(rt: HostRuntime) -> Result<(), Fail> {
    assert_eq!(rt; first_wrong_document(rt.alloc())?, None);
    Ok(())
}

#[test]
fn options_take_the_given_context(rt: HostRuntime) -> Result<(), Fail> {
    assert_eq!(rt; first_wrong_options(rt.alloc())?, None);
    Ok(())
}

/// What a fault says.
fn said(alloc: Global, fault: FlatFault) -> Result<String, Fail> {
    Ok(format!(in alloc; "{fault}")?)
}

#[test]
fn faults_say_why(rt: HostRuntime) -> Result<(), Fail> {
    assert_eq!(rt;
        said(rt.alloc(), FlatFault::NotBuilt)?.as_str(),
        "the request is not flat"
    );
    assert_eq!(rt;
        said(rt.alloc(), FlatFault::Memory)?.as_str(),
        "out of memory"
    );
    Ok(())
}
