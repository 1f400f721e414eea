//! Tests of reading. What is wanted was typed from the standard's rules.

ghost use Rattle.std.specs.Prelude.{All};
ghost use Rattle.nquads.specs.Stored.{IsKnown};

use bumpalo::Bump;
use nquads::{Memory, NqFault, Text, read};
use std::alloc::Global;
use std::test::Fail;
use term_store::{Quad, Terms};

/// A text of one statement, and the texts of its parts.
struct Accepted {
    name: &'static str,
    text: &'static str,
    want: &'static str,
}

const ACCEPTED: [Accepted; 19] = [
    Accepted {
        name: "three IRIs",
        text: "<http://e/s> <http://e/p> <http://e/o> .\n",
        want: "<http://e/s> <http://e/p> <http://e/o> ",
    },
    Accepted {
        name: "no gap before the dot, and no end of the line",
        text: "<http://e/s> <http://e/p> <http://e/o>.",
        want: "<http://e/s> <http://e/p> <http://e/o> ",
    },
    Accepted {
        name: "spaces and tabs around, and a comment",
        text: "\t <http://e/s>\t\t<http://e/p> \t\"o\"\t.\t # <http://e/s> \u{fffe}\n",
        want: "<http://e/s> <http://e/p> \"o\" ",
    },
    Accepted {
        name: "a graph, and no gap before the dot",
        text: "<http://e/s> <http://e/p> \"o\" <http://e/g>.\n",
        want: "<http://e/s> <http://e/p> \"o\" <http://e/g>",
    },
    Accepted {
        name: "xsd:string written out",
        text: "<http://e/s> <http://e/p> \"o\"^^<http://www.w3.org/2001/XMLSchema#string> .\n",
        want: "<http://e/s> <http://e/p> \"o\" ",
    },
    Accepted {
        name: "a datatype",
        text: "<http://e/s> <http://e/p> \"4\"^^<http://e/n> .\n",
        want: "<http://e/s> <http://e/p> \"4\"^^<http://e/n> ",
    },
    Accepted {
        name: "a language, and no gap before the dot",
        text: "<http://e/s> <http://e/p> \"chat\"@fr-BE-1694.\n",
        want: "<http://e/s> <http://e/p> \"chat\"@fr-BE-1694 ",
    },
    Accepted {
        name: "escapes by letters",
        text: "<http://e/s> <http://e/p> \"\\t\\b\\n\\r\\f\\\"\\'\\\\\" .\n",
        want: "<http://e/s> <http://e/p> \"\\t\\b\\n\\r\\f\\\"'\\\\\" ",
    },
    Accepted {
        name: "characters by their numbers, with digits of either case",
        text: "<http://e/s> <http://e/p> \"\\u00e9\\u00E9\\U0001f980\\u000A\" .\n",
        want: "<http://e/s> <http://e/p> \"éé🦀\\n\" ",
    },
    Accepted {
        name: "numbers in IRIs",
        text: "<http://e/\\u00E9> <http://e/\\U00000070> <http://e/o>.\n",
        want: "<http://e/é> <http://e/p> <http://e/o> ",
    },
    Accepted {
        name: "controls and a quote in quotes as they are",
        text: "<http://e/s> <http://e/p> \"\u{1}\t\u{7f}'\" .\n",
        want: "<http://e/s> <http://e/p> \"\\u0001\\t\\u007F'\" ",
    },
    Accepted {
        name: "labels with dots, the last of which ends the line",
        text: "_:a.b <http://e/p> _:0-c.d.\n",
        want: "_:na.b <http://e/p> _:n0-c.d ",
    },
    Accepted {
        name: "labels past ASCII, and a blank graph",
        text: "_:é <http://e/p> _:a:b_ _:g .\n",
        want: "_:né <http://e/p> _:na:b_ _:ng",
    },
    Accepted {
        name: "a comment behind the dot without a gap",
        text: "_:a <http://e/p> _:b.# c\n",
        want: "_:na <http://e/p> _:nb ",
    },
    Accepted {
        name: "empty lines and comments",
        text: "\n \t\n# c\n  # c\r\n_:a <http://e/p> _:b .\n\n",
        want: "_:na <http://e/p> _:nb ",
    },
    Accepted {
        name: "CR LF, and a line twice",
        text: "_:a <http://e/p> _:b .\r\n_:a\t<http://e/p> _:b.\r\n",
        want: "_:na <http://e/p> _:nb ",
    },
    Accepted {
        name: "CR, and a line twice",
        text: "\r_:a <http://e/p> _:b .\r_:a <http://e/p> _:b .",
        want: "_:na <http://e/p> _:nb ",
    },
    Accepted {
        name: "a bracket and a gap in quotes",
        text: "_:a <http://e/p> \"> <\" .\n",
        want: "_:na <http://e/p> \"> <\" ",
    },
    Accepted {
        name: "the empty text",
        text: "_:a <http://e/p> \"\" .\n",
        want: "_:na <http://e/p> \"\" ",
    },
];

/// Puts the four texts of each statement at the end.
fn push_all(out: &mut Text, terms: &Terms<'_>, quads: &[Quad]) -> Result<(), Memory>
    requires { All (IsKnown terms.now) quads.now }
{
    for quad in quads {
        push_quad(out, terms, quad)?;
    }
    Ok(())
}

fn push_quad(out: &mut Text, terms: &Terms<'_>, quad: &Quad) -> Result<(), Memory>
    requires { IsKnown terms.now quad.now }
{
    out.push_str(terms.text(quad.subject))?;
    out.push_str(" ")?;
    out.push_str(terms.text(quad.predicate))?;
    out.push_str(" ")?;
    out.push_str(terms.text(quad.object))?;
    out.push_str(" ")?;
    if let Some(graph) = quad.graph {
        out.push_str(terms.text(graph))?;
    }
    Ok(())
}

/// The texts of what is read.
fn texts_of(alloc: Global, bytes: &[u8]) -> Result<Text, NqFault> {
    let arena = Bump::new(alloc);
    let mut terms = Terms::new(alloc, &arena)?;
    let quads = read(alloc, &mut terms, bytes)?;
    let mut out = Text::new(alloc);
    push_all(&mut out, &terms, quads.as_slice())?;
    Ok(out)
}

/// The name of the first text that is read otherwise, or nothing.
fn first_misread(alloc: Global) -> &'static str {
    for row in &ACCEPTED {
        if !is_read_as(alloc, row.text, row.want) {
            return row.name;
        }
    }
    ""
}

/// Whether these are the texts of what is read.
fn is_read_as(alloc: Global, text: &str, want: &str) -> bool {
    match texts_of(alloc, text.as_bytes()) {
        Ok(got) => got.as_str() == want,
        Err(_) => false,
    }
}

#[test]
fn statements_are_read(rt: HostRuntime) {
    assert_eq!(rt; first_misread(rt.alloc()), "");
}

/// A text that is refused, and the byte where its first bad line begins.
struct Refused {
    name: &'static str,
    text: &'static str,
    at: u64,
}

const TERMS_REFUSED: [Refused; 18] = [
    Refused {
        name: "a relative IRI",
        text: "<s> <http://e/p> \"o\" .\n",
        at: 0,
    },
    Refused {
        name: "a relative datatype",
        text: "_:a <http://e/p> \"o\"^^<d> .\n",
        at: 0,
    },
    Refused {
        name: "a space in an IRI by its number",
        text: "<http://e/\\u0020> <http://e/p> \"o\" .\n",
        at: 0,
    },
    Refused {
        name: "an escape by a letter in an IRI",
        text: "<http://e/\\n> <http://e/p> \"o\" .\n",
        at: 0,
    },
    Refused {
        name: "rdf:langString without a language",
        text: "_:a <http://e/p> \"o\"^^<http://www.w3.org/1999/02/22-rdf-syntax-ns#langString> .\n",
        at: 0,
    },
    Refused {
        name: "a language that begins with a digit",
        text: "_:a <http://e/p> \"o\"@1 .\n",
        at: 0,
    },
    Refused {
        name: "a language that ends with a hyphen",
        text: "_:a <http://e/p> \"o\"@fr- .\n",
        at: 0,
    },
    Refused {
        name: "a surrogate",
        text: "_:a <http://e/p> \"\\uD800\" .\n",
        at: 0,
    },
    Refused {
        name: "a number past the last character",
        text: "_:a <http://e/p> \"\\U00110000\" .\n",
        at: 0,
    },
    Refused {
        name: "three digits",
        text: "_:a <http://e/p> \"\\u00E\" .\n",
        at: 0,
    },
    Refused {
        name: "an unknown escape",
        text: "_:a <http://e/p> \"\\a\" .\n",
        at: 0,
    },
    Refused {
        name: "U+FFFE",
        text: "_:a <http://e/p> \"\u{fffe}\" .\n",
        at: 0,
    },
    Refused {
        name: "U+FFFF by its number, in an IRI",
        text: "<http://e/\\uFFFF> <http://e/p> \"o\" .\n",
        at: 0,
    },
    Refused {
        name: "U+FFFF in a label",
        text: "_:a\u{ffff} <http://e/p> \"o\" .\n",
        at: 0,
    },
    Refused {
        name: "a label with a hyphen first",
        text: "_:-a <http://e/p> \"o\" .\n",
        at: 0,
    },
    Refused {
        name: "a label with two dots last",
        text: "_:a <http://e/p> _:b..\n",
        at: 0,
    },
    Refused {
        name: "an empty label",
        text: "_: <http://e/p> \"o\" .\n",
        at: 0,
    },
    Refused {
        name: "a quote that is not closed",
        text: "_:a <http://e/p> \"o .\n",
        at: 0,
    },
];

const LINES_REFUSED: [Refused; 14] = [
    Refused {
        name: "no dot",
        text: "_:a <http://e/p> \"o\"\n",
        at: 0,
    },
    Refused {
        name: "no object",
        text: "_:a <http://e/p> .\n",
        at: 0,
    },
    Refused {
        name: "no gap behind the subject",
        text: "<http://e/s><http://e/p> \"o\" .\n",
        at: 0,
    },
    Refused {
        name: "no gap behind the predicate",
        text: "_:a <http://e/p>\"o\" .\n",
        at: 0,
    },
    Refused {
        name: "no gap before the graph",
        text: "_:a <http://e/p> \"o\"<http://e/g> .\n",
        at: 0,
    },
    Refused {
        name: "a literal as subject",
        text: "\"s\" <http://e/p> \"o\" .\n",
        at: 0,
    },
    Refused {
        name: "a blank node as predicate",
        text: "_:a _:p \"o\" .\n",
        at: 0,
    },
    Refused {
        name: "a literal as graph",
        text: "_:a <http://e/p> \"o\" \"g\" .\n",
        at: 0,
    },
    Refused {
        name: "two statements on a line",
        text: "_:a <http://e/p> \"o\" . _:a <http://e/p> \"o\" .\n",
        at: 0,
    },
    Refused {
        name: "the second line",
        text: "_:a <http://e/p> \"o\" .\n_:a\n_:b\n",
        at: 23,
    },
    Refused {
        name: "the second line, behind CR LF",
        text: "_:a <http://e/p> \"o\" .\r\n_:a\n",
        at: 24,
    },
    Refused {
        name: "the second line, behind CR",
        text: "_:a <http://e/p> \"o\" .\r_:a",
        at: 23,
    },
    Refused {
        name: "a text that goes on in the next line",
        text: "# c\n_:a <http://e/p> \"o\no\" .\n",
        at: 4,
    },
    Refused {
        name: "another space than U+0020",
        text: "_:a <http://e/p> \"o\"\u{a0}.\n",
        at: 0,
    },
];

/// Whether the text is refused at this byte.
fn is_refused_at(alloc: Global, bytes: &[u8], at: u64) -> bool {
    texts_of(alloc, bytes).err() == Some(NqFault::At(at))
}

/// The name of the first text that is not refused at its byte, or nothing.
fn first_not_refused(alloc: Global, rows: &[Refused]) -> &'static str {
    for row in rows {
        if !is_refused_at(alloc, row.text.as_bytes(), row.at) {
            return row.name;
        }
    }
    ""
}

#[test]
fn what_is_no_line_is_refused(rt: HostRuntime) {
    assert_eq!(rt; first_not_refused(rt.alloc(), &TERMS_REFUSED), "");
    assert_eq!(rt; first_not_refused(rt.alloc(), &LINES_REFUSED), "");
    assert!(rt; is_refused_at(rt.alloc(), b"_:a <http://e/p> \"\xff\" .\n", 0));
    assert!(rt; is_refused_at(rt.alloc(), b"\n# \xff\n", 1));
}

/// A text of so many different statements, each twice.
fn many_statements(alloc: Global, count: u32) -> Result<Text, Fail> {
    let mut out = Text::new(alloc);
    for _ in 0..2u8 {
        for number in 0..count {
            let line = format!(in alloc; "<http://e/s> <http://e/p> \"{number}\" .\n")?;
            out.push_str(line.as_str())?;
        }
    }
    Ok(out)
}

/// Why so many different statements are not read, if they are not.
fn statements_fault(alloc: Global, count: u32) -> Result<Option<NqFault>, Fail> {
    let text = many_statements(alloc, count)?;
    Ok(texts_of(alloc, text.as_bytes()).err())
}

#[test]
fn statements_are_counted_once(rt: HostRuntime) -> Result<(), Fail> {
    assert_eq!(rt; statements_fault(rt.alloc(), 20_000)?, None);
    assert_eq!(rt;
        statements_fault(rt.alloc(), 20_001)?,
        Some(NqFault::TooManyStatements(20_000))
    );
    Ok(())
}

/// A text of statements that mention so many blank nodes.
fn many_blanks(alloc: Global, count: u32) -> Result<Text, Fail> {
    let mut out = Text::new(alloc);
    for number in 0..count {
        let line = format!(in alloc; "_:b{number} <http://e/p> _:b0 _:b{number} .\n")?;
        out.push_str(line.as_str())?;
    }
    Ok(out)
}

/// Why statements that mention so many blank nodes are not read, if they are not.
fn blanks_fault(alloc: Global, count: u32) -> Result<Option<NqFault>, Fail> {
    let text = many_blanks(alloc, count)?;
    Ok(texts_of(alloc, text.as_bytes()).err())
}

#[test]
fn blank_nodes_are_counted_once(rt: HostRuntime) -> Result<(), Fail> {
    assert_eq!(rt; blanks_fault(rt.alloc(), 4_096)?, None);
    assert_eq!(rt;
        blanks_fault(rt.alloc(), 4_097)?,
        Some(NqFault::TooManyBlanks(4_096))
    );
    Ok(())
}
