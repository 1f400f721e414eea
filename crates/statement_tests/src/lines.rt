//! Tests of literals, lines and texts. What is wanted was typed from the standard's rules.

use nquads::{
    Memory, Text, TextLabels, TextQuad, TextQuads, canonical_lines, iri, line_of, literal, text_of,
};
use std::alloc::Global;

const XSD_STRING: &str = "http://www.w3.org/2001/XMLSchema#string";

const LANG_STRING: &str = "http://www.w3.org/1999/02/22-rdf-syntax-ns#langString";

const NUMBER: &str = "http://example.org/n";

/// A literal's parts, and how it is written.
struct Literal {
    name: &'static str,
    text: &'static str,
    datatype: &'static str,
    language: Option<&'static str>,
    want: &'static str,
}

const LITERALS: [Literal; 8] = [
    Literal {
        name: "named escapes and U+007F",
        text: "a\nb\tc\"d\\e\u{7f}",
        datatype: XSD_STRING,
        language: None,
        want: r#""a\nb\tc\"d\\e\u007F""#,
    },
    Literal {
        name: "nothing",
        text: "",
        datatype: XSD_STRING,
        language: None,
        want: r#""""#,
    },
    Literal {
        name: "characters past ASCII as they are",
        text: "é\u{80}🦀'/",
        datatype: XSD_STRING,
        language: None,
        want: "\"é\u{80}🦀'/\"",
    },
    Literal {
        name: "a datatype",
        text: "42",
        datatype: NUMBER,
        language: None,
        want: r#""42"^^<http://example.org/n>"#,
    },
    Literal {
        name: "a language",
        text: "chat",
        datatype: LANG_STRING,
        language: Some("fr-BE"),
        want: r#""chat"@fr-BE"#,
    },
    Literal {
        name: "a language beside xsd:string",
        text: "chat",
        datatype: XSD_STRING,
        language: Some("fr"),
        want: r#""chat"@fr"#,
    },
    Literal {
        name: "the other named escapes, with a datatype",
        text: "\u{8}\u{c}\r",
        datatype: NUMBER,
        language: None,
        want: r#""\b\f\r"^^<http://example.org/n>"#,
    },
    Literal {
        name: "a datatype that only begins as xsd:string",
        text: "\u{0}\u{b}\u{1f}",
        datatype: "http://www.w3.org/2001/XMLSchema#strings",
        language: None,
        want: r#""\u0000\u000B\u001F"^^<http://www.w3.org/2001/XMLSchema#strings>"#,
    },
];

/// The control characters in order, as canonical N-Quads writes them.
const CONTROLS: [&str; 32] = [
    "\\u0000", "\\u0001", "\\u0002", "\\u0003", "\\u0004", "\\u0005", "\\u0006", "\\u0007", "\\b",
    "\\t", "\\n", "\\u000B", "\\f", "\\r", "\\u000E", "\\u000F", "\\u0010", "\\u0011", "\\u0012",
    "\\u0013", "\\u0014", "\\u0015", "\\u0016", "\\u0017", "\\u0018", "\\u0019", "\\u001A",
    "\\u001B", "\\u001C", "\\u001D", "\\u001E", "\\u001F",
];

/// The name of the first literal that is written otherwise, or nothing.
fn first_miswritten(alloc: Global) -> Result<&'static str, Memory> {
    for row in &LITERALS {
        let got = literal(alloc, row.text, row.datatype, row.language)?;
        if got.as_str() != row.want {
            return Ok(row.name);
        }
    }
    Ok("")
}

/// Whether a control character is written so.
fn is_escaped_as(alloc: Global, code: u8, escape: &str) -> Result<bool, Memory> {
    let mut text = Text::new(alloc);
    text.push(code as char)?;
    let mut want = Text::from_str(alloc, "\"")?;
    want.push_str(escape)?;
    want.push_str("\"")?;
    let got = literal(alloc, text.as_str(), XSD_STRING, None)?;
    Ok(got.as_str() == want.as_str())
}

/// The first control character that is written otherwise, if there is one.
fn first_unescaped(alloc: Global) -> Result<Option<u8>, Memory> {
    for code in 0..32u8 {
        if !is_escaped_as(alloc, code, CONTROLS[code as usize])? {
            return Ok(Some(code));
        }
    }
    Ok(None)
}

#[test]
fn literals_are_canonical(rt: HostRuntime) -> Result<(), Memory> {
    assert_eq!(rt; first_miswritten(rt.alloc())?, "");
    assert_eq!(rt; first_unescaped(rt.alloc())?, None);
    Ok(())
}

/// Subject, object and graph of the statements of a dataset, the third twice.
const STATEMENTS: [(&str, &str, Option<&str>); 5] = [
    ("_:nx", "\"2\"", None),
    ("_:ny", "_:nx", Some("_:g/0")),
    ("<http://example.org/s>", "\"1\"", None),
    ("<http://example.org/s>", "\"1\"", None),
    ("_:nz", "_:nx", None),
];

/// Its lines under the labels below, in code-point order, each once. `_:nz` has no label.
const LINES: [&str; 4] = [
    "<http://example.org/s> <http://example.org/p> \"1\" .\n",
    "_: <http://example.org/p> _:c14n1 .\n",
    "_:c14n0 <http://example.org/p> _:c14n1 _:c14n2 .\n",
    "_:c14n1 <http://example.org/p> \"2\" .\n",
];

/// The lines, one after another.
const TEXT: &str =
    "<http://example.org/s> <http://example.org/p> \"1\" .\n_: <http://example.org/p> _:c14n1 .\n_:c14n0 <http://example.org/p> _:c14n1 _:c14n2 .\n_:c14n1 <http://example.org/p> \"2\" .\n";

fn quad(
    alloc: Global,
    subject: &str,
    object: &str,
    graph: Option<&str>,
) -> Result<TextQuad, Memory> {
    let graph = match graph {
        Some(graph) => Some(Text::from_str(alloc, graph)?),
        None => None,
    };
    Ok(TextQuad {
        subject: Text::from_str(alloc, subject)?,
        predicate: iri(alloc, "http://example.org/p")?,
        object: Text::from_str(alloc, object)?,
        graph,
    })
}

fn labels(alloc: Global) -> Result<TextLabels, Memory> {
    let mut labels = TextLabels::new(alloc);
    for (blank, text) in [("_:nx", "c14n1"), ("_:ny", "c14n0"), ("_:g/0", "c14n2")] {
        let blank = Text::from_str(alloc, blank)?;
        if labels.get(blank.as_str()).is_none() {
            labels.push(blank, Text::from_str(alloc, text)?)?;
        }
    }
    Ok(labels)
}

/// The line of a statement that has all four parts.
fn line_of_four(alloc: Global) -> Result<Text, Memory> {
    let labels = labels(alloc)?;
    let quad = quad(alloc, "_:nx", "\"é\"@fr", Some("_:g/0"))?;
    line_of(alloc, &quad, &labels)
}

#[test]
fn a_line_has_all_four_parts(rt: HostRuntime) -> Result<(), Memory> {
    assert_eq!(rt; labels(rt.alloc())?.len(), 3);
    assert_eq!(rt;
        line_of_four(rt.alloc())?.as_str(),
        "_:c14n1 <http://example.org/p> \"é\"@fr _:c14n2 .\n"
    );
    Ok(())
}

fn dataset(alloc: Global) -> Result<TextQuads, Memory> {
    let mut parts = Vec::new(alloc);
    for (subject, object, graph) in &STATEMENTS {
        parts.push(quad(alloc, subject, object, *graph)?)?;
    }
    Ok(TextQuads::from_vec(parts))
}

/// Whether these are the lines.
fn are_the_lines(lines: &[Text]) -> bool {
    lines.len() == LINES.len()
        && lines
            .iter()
            .zip(&LINES)
            .all(|(line, want)| line.as_str() == *want)
}

/// Whether the dataset has its four statements, these lines, and these one after another.
fn has_the_lines(alloc: Global) -> Result<bool, Memory> {
    let labels = labels(alloc)?;
    let quads = dataset(alloc)?;
    let lines = canonical_lines(alloc, &quads, &labels)?;
    let text = text_of(alloc, &quads, &labels)?;
    Ok(
        quads.len() == 4
            && !quads.is_empty()
            && are_the_lines(lines.as_slice())
            && text.as_slice() == TEXT.as_bytes(),
    )
}

#[test]
fn a_text_is_sorted_without_repeats(rt: HostRuntime) -> Result<(), Memory> {
    assert!(rt; has_the_lines(rt.alloc())?);
    Ok(())
}
