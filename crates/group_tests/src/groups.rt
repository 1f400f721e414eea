//! Lines of marked datasets, and refusals. What is wanted was made by a program in Python, by the
//! steps of Data Integrity ECDSA Cryptosuites 1.0, canonicalizeAndGroup.

ghost use Rattle.std.specs.Prelude.{◌<◌, All, IfSome, IsTrue, length};
ghost use Rattle.nquads.specs.Stored.{AreLabelsKnown, HasLabel, IsKnown, IsLabelled};

use bumpalo::Bump;
use nquads::{Labels, NqFault, read};
use std::alloc::Global;
use std::test::Fail;
use stmt_groups::{Groups, PartFault, Text, group, parts};
use term_store::{Quad, Quads, TermId, Terms};

/// The lines with their marks, or the text of a statement that is out of place.
enum Want {
    Lines(&'static [(&'static str, bool, bool)]),
    NotPart(&'static str),
}

/// A dataset, its mandatory part and its chosen part, in N-Quads.
struct Case {
    name: &'static str,
    whole: &'static str,
    mandatory: &'static str,
    chosen: &'static str,
    want: Want,
}

/// The labels of the blank nodes; three of them have one.
const LABELS: [(&str, &str); 8] = [
    ("_:nx", "c14n1"),
    ("_:ny", "c14n0"),
    ("_:nz", "b"),
    ("_:nw", "b"),
    ("_:nv", "b"),
    ("_:ng", "c14n2"),
    ("_:nl0", "c14n3"),
    ("_:nl1", "c14n4"),
];

const CASES: [Case; 13] = [
    Case {
        name: "no statement",
        whole: "",
        mandatory: "",
        chosen: "",
        want: Want::Lines(&[]),
    },
    Case {
        name: "marks of all kinds, two lines with one text",
        whole: concat!(
            "_:x <http://example.org/p> _:z .\n",
            "_:x <http://example.org/p> \"_:x\" .\n",
            "_:y <http://example.org/p> _:x _:g .\n",
            "<http://example.org/s> <http://example.org/p> \"\u{1f980}\" .\n",
            "<http://example.org/s> <http://example.org/p> \"\u{ff5e}\" .\n",
            "<urn:_:nx> <http://example.org/p> \"_:nx\" <http://example.org/g> .\n",
            "_:x <http://example.org/p> _:w .\n",
            "_:x <http://example.org/p> _:v .\n",
        ),
        mandatory: concat!(
            "<urn:_:nx> <http://example.org/p> \"_:nx\" <http://example.org/g> .\n",
            "_:x <http://example.org/p> \"_:x\" .\n",
            "_:x <http://example.org/p> _:z .\n",
        ),
        chosen: concat!(
            "_:x <http://example.org/p> _:v .\n",
            "_:x <http://example.org/p> \"_:x\" .\n",
            "_:y <http://example.org/p> _:x _:g .\n",
            "<http://example.org/s> <http://example.org/p> \"\u{ff5e}\" .\n",
            "<urn:_:nx> <http://example.org/p> \"_:nx\" <http://example.org/g> .\n",
            "_:x <http://example.org/p> _:z .\n",
            "_:x <http://example.org/p> _:w .\n",
        ),
        want: Want::Lines(&[
            (
                "<http://example.org/s> <http://example.org/p> \"\u{ff5e}\" .\n",
                false,
                true,
            ),
            (
                "<http://example.org/s> <http://example.org/p> \"\u{1f980}\" .\n",
                false,
                false,
            ),
            (
                "<urn:_:nx> <http://example.org/p> \"_:nx\" <http://example.org/g> .\n",
                true,
                true,
            ),
            (
                "_:c14n0 <http://example.org/p> _:c14n1 _:c14n2 .\n",
                false,
                true,
            ),
            ("_:c14n1 <http://example.org/p> \"_:x\" .\n", true, true),
            ("_:c14n1 <http://example.org/p> _:b .\n", false, true),
            ("_:c14n1 <http://example.org/p> _:b .\n", true, true),
        ]),
    },
    Case {
        name: "everything is mandatory",
        whole: concat!(
            "<urn:b> <http://example.org/p> <urn:o> .\n",
            "<urn:a> <http://example.org/p> <urn:o> .\n",
        ),
        mandatory: concat!(
            "<urn:a> <http://example.org/p> <urn:o> .\n",
            "<urn:b> <http://example.org/p> <urn:o> .\n",
        ),
        chosen: concat!(
            "<urn:b> <http://example.org/p> <urn:o> .\n",
            "<urn:a> <http://example.org/p> <urn:o> .\n",
        ),
        want: Want::Lines(&[
            ("<urn:a> <http://example.org/p> <urn:o> .\n", true, true),
            ("<urn:b> <http://example.org/p> <urn:o> .\n", true, true),
        ]),
    },
    Case {
        name: "nothing is chosen",
        whole: concat!(
            "<urn:c> <http://example.org/p> <urn:o> .\n",
            "<urn:b> <http://example.org/p> <urn:o> .\n",
            "<urn:a> <http://example.org/p> <urn:o> .\n",
        ),
        mandatory: "",
        chosen: "",
        want: Want::Lines(&[
            ("<urn:a> <http://example.org/p> <urn:o> .\n", false, false),
            ("<urn:b> <http://example.org/p> <urn:o> .\n", false, false),
            ("<urn:c> <http://example.org/p> <urn:o> .\n", false, false),
        ]),
    },
    Case {
        name: "chosen, and none of the whole",
        whole: "<urn:a> <http://example.org/p> <urn:o> .\n",
        mandatory: "",
        chosen: concat!(
            "<urn:a> <http://example.org/p> <urn:o> .\n",
            "<urn:b> <http://example.org/p> <urn:o> .\n",
        ),
        want: Want::NotPart("<urn:b> <http://example.org/p> <urn:o> ."),
    },
    Case {
        name: "mandatory and chosen, and none of the whole",
        whole: "<urn:a> <http://example.org/p> <urn:o> .\n",
        mandatory: "<urn:b> <http://example.org/p> <urn:o> .\n",
        chosen: concat!(
            "<urn:a> <http://example.org/p> <urn:o> .\n",
            "<urn:b> <http://example.org/p> <urn:o> .\n",
        ),
        want: Want::NotPart("<urn:b> <http://example.org/p> <urn:o> ."),
    },
    Case {
        name: "mandatory, and none of the whole",
        whole: concat!(
            "<urn:a> <http://example.org/p> <urn:o> .\n",
            "<urn:b> <http://example.org/p> <urn:o> .\n",
        ),
        mandatory: "<urn:c> <http://example.org/p> <urn:o> .\n",
        chosen: "<urn:a> <http://example.org/p> <urn:o> .\n",
        want: Want::NotPart("<urn:c> <http://example.org/p> <urn:o> ."),
    },
    Case {
        name: "mandatory and not chosen",
        whole: concat!(
            "<urn:a> <http://example.org/p> <urn:o> .\n",
            "<urn:b> <http://example.org/p> <urn:o> .\n",
        ),
        mandatory: concat!(
            "<urn:a> <http://example.org/p> <urn:o> .\n",
            "<urn:b> <http://example.org/p> <urn:o> .\n",
        ),
        chosen: "<urn:b> <http://example.org/p> <urn:o> .\n",
        want: Want::NotPart("<urn:a> <http://example.org/p> <urn:o> ."),
    },
    Case {
        name: "the least of all kinds, not the first",
        whole: concat!(
            "<urn:b> <http://example.org/p> <urn:o> .\n",
            "<urn:0> <http://example.org/p> <urn:o> .\n",
        ),
        mandatory: concat!(
            "<urn:b> <http://example.org/p> <urn:o> .\n",
            "<urn:0> <http://example.org/p> <urn:o> .\n",
            "<urn:d> <http://example.org/p> <urn:o> .\n",
        ),
        chosen: concat!(
            "<urn:b> <http://example.org/p> <urn:o> .\n",
            "<urn:c> <http://example.org/p> <urn:o> .\n",
        ),
        want: Want::NotPart("<urn:0> <http://example.org/p> <urn:o> ."),
    },
    Case {
        name: "the least where only blank nodes and graphs differ",
        whole: "<urn:a> <http://example.org/p> <urn:o> .\n",
        mandatory: "",
        chosen: concat!(
            "_:x <http://example.org/p> _:y _:g .\n",
            "_:z <http://example.org/p> _:w .\n",
            "_:z <http://example.org/p> \"_:w\" _:g .\n",
        ),
        want: Want::NotPart("_:x <http://example.org/p> \"_:w\" _:x ."),
    },
    Case {
        name: "code points, not UTF-16",
        whole: "<urn:a> <http://example.org/p> <urn:o> .\n",
        mandatory: "",
        chosen: concat!(
            "<http://example.org/s> <http://example.org/p> \"\u{1f980}\" .\n",
            "<http://example.org/s> <http://example.org/p> \"\u{ff5e}\" .\n",
        ),
        want: Want::NotPart("<http://example.org/s> <http://example.org/p> \"\u{ff5e}\" ."),
    },
    Case {
        name: "a shorter text first",
        whole: "<urn:a> <http://example.org/p> <urn:o> .\n",
        mandatory: "",
        chosen: concat!(
            "<urn:bb> <http://example.org/p> <urn:o> .\n",
            "<urn:b> <http://example.org/p> <urn:o> .\n",
        ),
        want: Want::NotPart("<urn:b> <http://example.org/p> <urn:o> ."),
    },
    Case {
        name: "the end of a list of which one element is chosen",
        whole: concat!(
            "_:l0 <http://www.w3.org/1999/02/22-rdf-syntax-ns#first> \"x\" .\n",
            "_:l0 <http://www.w3.org/1999/02/22-rdf-syntax-ns#rest> _:l1 .\n",
            "_:l1 <http://www.w3.org/1999/02/22-rdf-syntax-ns#first> \"y\" .\n",
            "_:l1 <http://www.w3.org/1999/02/22-rdf-syntax-ns#rest> <http://www.w3.org/1999/02/22-rdf-syntax-ns#nil> .\n",
        ),
        mandatory: concat!(
            "_:l0 <http://www.w3.org/1999/02/22-rdf-syntax-ns#first> \"x\" .\n",
            "_:l0 <http://www.w3.org/1999/02/22-rdf-syntax-ns#rest> <http://www.w3.org/1999/02/22-rdf-syntax-ns#nil> .\n",
        ),
        chosen: concat!(
            "_:l0 <http://www.w3.org/1999/02/22-rdf-syntax-ns#first> \"x\" .\n",
            "_:l0 <http://www.w3.org/1999/02/22-rdf-syntax-ns#rest> <http://www.w3.org/1999/02/22-rdf-syntax-ns#nil> .\n",
        ),
        want: Want::NotPart(
            "_:x <http://www.w3.org/1999/02/22-rdf-syntax-ns#rest> <http://www.w3.org/1999/02/22-rdf-syntax-ns#nil> .",
        ),
    },
];

/// The labels by the numbers of the blank nodes.
fn labels(alloc: Global, terms: &mut Terms<'_>) -> Result<Labels, NqFault> {
    let mut labels = Labels::new(alloc);
    for (blank, text) in LABELS {
        let id = terms.intern(blank)?;
        if labels.get(id).is_none() {
            labels.push(id, Text::from_str(alloc, text)?)?;
        }
    }
    Ok(labels)
}

fn is_in(terms: &Terms<'_>, id: TermId) -> bool
    ensures { IsTrue result → id.index < length terms.now }
{
    (id.index as usize) < terms.len()
}

fn has_label(terms: &Terms<'_>, labels: &Labels, id: TermId) -> bool
    ensures known { IsTrue result → id.index < length terms.now }
    ensures labelled { IsTrue result → HasLabel terms.now labels.now id }
{
    is_in(terms, id) && (!terms.is_blank(id) || labels.get(id).is_some())
}

fn has_graph_label(terms: &Terms<'_>, labels: &Labels, graph: Option<TermId>) -> bool
    ensures known { IsTrue result → IfSome graph (λ g. g.index < length terms.now) }
    ensures labelled { IsTrue result → IfSome graph (HasLabel terms.now labels.now) }
{
    match graph {
        Some(id) => has_label(terms, labels, id),
        None => true,
    }
}

fn is_labelled(terms: &Terms<'_>, labels: &Labels, quad: &Quad) -> bool
    ensures known { IsTrue result → IsKnown terms.now quad.now }
    ensures labelled { IsTrue result → IsLabelled terms.now labels.now quad.now }
{
    has_label(terms, labels, quad.subject)
        && is_in(terms, quad.predicate)
        && has_label(terms, labels, quad.object)
        && has_graph_label(terms, labels, quad.graph)
}

fn are_labelled(terms: &Terms<'_>, labels: &Labels, quads: &[Quad]) -> bool
    ensures known { IsTrue result → All (IsKnown terms.now) quads.now }
    ensures labelled { IsTrue result → All (IsLabelled terms.now labels.now) quads.now }
{
    for quad in quads {
        if !is_labelled(terms, labels, quad) {
            return false;
        }
    }
    true
}

fn are_labels_known(terms: &Terms<'_>, labels: &Labels) -> bool
    ensures { IsTrue result → AreLabelsKnown terms.now labels.now }
{
    for place in 0..labels.len() {
        let Some((id, _)) = labels.at(place) else {
            return false;
        };
        if !is_in(terms, id) {
            return false;
        }
    }
    true
}

/// Whether the dataset may be marked and its lines be written.
fn is_ready(
    terms: &Terms<'_>,
    labels: &Labels,
    whole: &Quads,
    mandatory: &Quads,
    chosen: &Quads,
) -> bool
    ensures whole { IsTrue result → All (IsKnown terms.now) whole.now }
    ensures mandatory { IsTrue result → All (IsKnown terms.now) mandatory.now }
    ensures chosen { IsTrue result → All (IsKnown terms.now) chosen.now }
    ensures labels { IsTrue result → AreLabelsKnown terms.now labels.now }
    ensures labelled { IsTrue result → All (IsLabelled terms.now labels.now) whole.now }
{
    are_labels_known(terms, labels)
        && are_labelled(terms, labels, whole.as_slice())
        && are_labelled(terms, labels, mandatory.as_slice())
        && are_labelled(terms, labels, chosen.as_slice())
}

/// The lines of the whole with its marks.
fn grouped(
    alloc: Global,
    terms: &Terms<'_>,
    labels: &Labels,
    whole: &Quads,
    mandatory: &Quads,
    chosen: &Quads,
) -> Result<Groups, PartFault> {
    if !is_ready(terms, labels, whole, mandatory, chosen) {
        return Err(PartFault::Memory);
    }
    let marks = parts(alloc, terms, whole, mandatory, chosen)?;
    let groups = group(alloc, terms, &marks, labels)?;
    Ok(groups)
}

/// Whether these are the lines, with these marks.
fn has_lines(groups: &Groups, want: &[(&str, bool, bool)]) -> bool {
    groups.lines.len() == want.len()
        && groups.lines.as_slice().iter().zip(want).all(|(line, want)| {
            line.text.as_str() == want.0 && line.mandatory == want.1 && line.chosen == want.2
        })
}

fn is_wanted(answer: &Result<Groups, PartFault>, want: &Want) -> bool {
    match answer {
        Ok(groups) => match want {
            Want::Lines(lines) => has_lines(groups, lines),
            Want::NotPart(_) => false,
        },
        Err(PartFault::NotPart(text)) => match want {
            Want::NotPart(want) => text.as_str() == *want,
            Want::Lines(_) => false,
        },
        Err(PartFault::Memory) => false,
    }
}

/// Whether the case is answered as it should be.
fn is_answered(alloc: Global, case: &Case) -> Result<bool, NqFault> {
    let arena = Bump::new(alloc);
    let mut terms = Terms::new(alloc, &arena)?;
    let labels = labels(alloc, &mut terms)?;
    let whole = read(alloc, &mut terms, case.whole.as_bytes())?;
    let mandatory = read(alloc, &mut terms, case.mandatory.as_bytes())?;
    let chosen = read(alloc, &mut terms, case.chosen.as_bytes())?;
    let answer = grouped(alloc, &terms, &labels, &whole, &mandatory, &chosen);
    Ok(is_wanted(&answer, &case.want))
}

#[test]
fn lines_and_refusals_are_those_of_another_program(rt: HostRuntime) -> Result<(), NqFault> {
    for case in &CASES {
        assert!(rt; is_answered(rt.alloc(), case)?, "{}", case.name);
    }
    Ok(())
}

#[test]
fn faults_say_why(rt: HostRuntime) -> Result<(), Fail> {
    let alloc = rt.alloc();
    let stray = PartFault::NotPart(Text::from_str(alloc, "_:x <urn:p> \"é\" .")?);
    let text = format!(in alloc; "{stray}")?;
    let line = "the statement is not part of the whole: _:x <urn:p> \"é\" .";
    assert_eq!(rt; text.as_str(), line);
    let memory = PartFault::Memory;
    let text = format!(in alloc; "{memory}")?;
    assert_eq!(rt; text.as_str(), "out of memory");
    Ok(())
}
