//! Worked datasets, by either hash, within exactly their limits of work, renamed and reordered.
use crate::cases::{CASES, Case, Row, Want};
use bumpalo::Bump;
use digest_mac::Hash;
use nquads::{Text, read};
use rdfc_canon::{Canon, CanonFault, Limits, Memory, canonicalise};
use std::alloc::Global;
use term_store::{TermId, Terms};

/// Names of the blank nodes, and whether the statements are written from the last to the first.
struct Form {
    names: [&'static str; 11],
    is_reversed: bool,
}

/// The names of the blank nodes in the datasets, then other names for them.
const FORMS: [Form; 3] = [
    Form {
        names: [
            "_:a", "_:n0", "_:n1", "_:n2", "_:n3", "_:n4", "_:n5", "_:n6", "_:n7", "_:n8", "_:n9",
        ],
        is_reversed: false,
    },
    Form {
        names: [
            "_:b", "_:n9", "_:n8", "_:n7", "_:n6", "_:n5", "_:n4", "_:n3", "_:n2", "_:n1", "_:n0",
        ],
        is_reversed: true,
    },
    Form {
        names: [
            "_:c14n1", "_:q", "_:c14n0", "_:a", "_:g0", "_:z", "_:n7", "_:b", "_:e3", "_:m", "_:n0",
        ],
        is_reversed: true,
    },
];

const HASHES: [Hash; 2] = [Hash::Sha256, Hash::Sha384];

/// What is wanted of a dataset by this hash.
fn wanted(case: &Case, hash: Hash) -> &Want {
    match hash {
        Hash::Sha256 => &case.sha256,
        Hash::Sha384 => &case.sha384,
    }
}

/// The term with its blank node named in another way.
fn renamed(term: &'static str, form: &Form) -> &'static str {
    for (name, other) in FORMS[0].names.iter().zip(&form.names) {
        if term == *name {
            return other;
        }
    }
    term
}

/// Puts the line of a statement at the end.
fn push_row(text: &mut Text, row: &Row, form: &Form) -> Result<(), Memory> {
    text.push_str(renamed(row.0, form))?;
    text.push_str(" ")?;
    text.push_str(row.1)?;
    text.push_str(" ")?;
    text.push_str(renamed(row.2, form))?;
    text.push_str(" ")?;
    text.push_str(renamed(row.3, form))?;
    text.push_str(" .\n")
}

/// The dataset in this form, as N-Quads.
fn text_of(alloc: Global, rows: &[Row], form: &Form) -> Result<Text, Memory> {
    let mut text = Text::new(alloc);
    if form.is_reversed {
        for row in rows.iter().rev() {
            push_row(&mut text, row, form)?;
        }
    } else {
        for row in rows {
            push_row(&mut text, row, form)?;
        }
    }
    Ok(text)
}

/// The labelling of a text of N-Quads.
pub(crate) fn answer(
    alloc: Global,
    terms: &mut Terms<'_>,
    text: &Text,
    hash: Hash,
    work: u64,
) -> Result<Canon, CanonFault> {
    match read(alloc, terms, text.as_bytes()) {
        Ok(quads) => canonicalise(alloc, terms, &quads, hash, &Limits { work }),
        Err(_) => Err(CanonFault::Memory),
    }
}

fn has_lines(canon: &Canon, lines: &'static [&'static str]) -> bool {
    for (line, want) in canon.lines.as_slice().iter().zip(lines) {
        if line.as_str() != *want {
            return false;
        }
    }
    canon.lines.len() == lines.len()
}

/// Whether a number of the store is that of the blank node which a text of N-Quads names so.
fn is_node(terms: &Terms<'_>, id: TermId, name: &str) -> bool {
    if (id.index as usize) >= terms.len() {
        return false;
    }
    match (terms.text(id).strip_prefix("_:n"), name.strip_prefix("_:")) {
        (Some(text), Some(name)) => text == name,
        _ => false,
    }
}

/// Whether the labels are those of these blank nodes, in this order.
fn has_order(
    terms: &Terms<'_>,
    canon: &Canon,
    order: &'static [&'static str],
    form: &Form,
) -> bool {
    for place in 0..order.len() {
        let same = match canon.labels.at(place) {
            Some((blank, _)) => is_node(terms, blank, renamed(order[place], form)),
            None => false,
        };
        if !same {
            return false;
        }
    }
    canon.labels.len() == order.len()
}

/// Whether the dataset in this form gives what stands in the case. Which of two equals comes first
/// is free.
fn is_as_stored(alloc: Global, case: &Case, form: &Form, hash: Hash) -> Result<bool, CanonFault> {
    let arena = Bump::new(alloc);
    let mut terms = Terms::new(alloc, &arena)?;
    let text = text_of(alloc, case.rows, form)?;
    let want = wanted(case, hash);
    let canon = answer(alloc, &mut terms, &text, hash, want.work)?;
    let labels = want.tie || has_order(&terms, &canon, want.order, form);
    let lines = has_lines(&canon, want.lines);
    Ok(lines && labels && canon.tie == want.tie && canon.work == want.work)
}

// Each dataset within exactly its limit, in each form.
#[test]
fn worked_datasets(rt: HostRuntime) -> Result<(), CanonFault> {
    for case in &CASES {
        for form in &FORMS {
            for hash in HASHES {
                let same = is_as_stored(rt.alloc(), case, form, hash)?;
                assert!(rt; same, "{}", case.name);
            }
        }
    }
    Ok(())
}

/// Whether a text of N-Quads is refused for this limit.
pub(crate) fn is_over(
    alloc: Global,
    text: &Text,
    hash: Hash,
    work: u64,
) -> Result<bool, CanonFault> {
    let arena = Bump::new(alloc);
    let mut terms = Terms::new(alloc, &arena)?;
    match answer(alloc, &mut terms, text, hash, work) {
        Ok(_) => Ok(false),
        Err(fault) => Ok(fault == CanonFault::TooMuchWork(work)),
    }
}

// One arrangement less than it takes.
#[test]
fn limits_are_exact(rt: HostRuntime) -> Result<(), CanonFault> {
    for case in &CASES {
        let text = text_of(rt.alloc(), case.rows, &FORMS[0])?;
        for hash in HASHES {
            if let Some(work) = wanted(case, hash).work.checked_sub(1) {
                let over = is_over(rt.alloc(), &text, hash, work)?;
                assert!(rt; over, "{}", case.name);
            }
        }
    }
    Ok(())
}
