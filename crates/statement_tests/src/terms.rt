//! What no clause says of out of memory and time, and the calls that no crate above makes yet.

ghost use Rattle.std.specs.Prelude.{◌≡◌, ◌<◌, length, IfOk, OnOk};
ghost use Rattle.term_store.specs.Store.{text_at, begins_blank, Grows};

use bumpalo::Bump;
use std::alloc::Global;
use std::test::Fail;
use term_store::{Memory, Quad, Quads, TermId, Terms};

/// So many different texts that a search through all of them would not end in time.
const MANY: u32 = 400_000;

/// The decimal digits of a number below 2^32, 16 of them.
fn digits(alloc: Global, number: u32) -> Result<String, Fail> {
    Ok(format!(in alloc; "{number:016}")?)
}

/// The number that the store gives a text.
fn number_of(terms: &mut Terms<'_>, text: &str) -> Result<u32, Memory> {
    Ok(terms.intern(text)?.index)
}

/// The first of the texts that gets another number, if there is one.
fn first_misplaced(alloc: Global, terms: &mut Terms<'_>) -> Result<Option<u32>, Fail> {
    for number in 0..MANY {
        let text = digits(alloc, number)?;
        if number_of(terms, text.as_str())? != number {
            return Ok(Some(number));
        }
    }
    Ok(None)
}

#[test]
fn many_texts_are_found_again(rt: HostRuntime) -> Result<(), Fail> {
    let arena = Bump::new(rt.alloc());
    let mut terms = Terms::new(rt.alloc(), &arena)?;
    assert_eq!(rt; first_misplaced(rt.alloc(), &mut terms)?, None);
    assert_eq!(rt; terms.len(), MANY as usize);
    assert_eq!(rt; first_misplaced(rt.alloc(), &mut terms)?, None);
    assert_eq!(rt; terms.len(), MANY as usize);
    Ok(())
}

/// A text is held while a further one is kept.
#[tactic(auto, using(term_store::proofs::StoreLemmas::store_lemmas))]
fn text_across_intern<'a>(terms: &mut Terms<'a>, id: TermId, more: &str) -> Result<&'a str, Memory>
    requires { id.index < length terms.old }
    ensures text { IfOk result (λ t. t.now ≡ text_at terms.old id) }
    ensures grows { OnOk result (Grows terms.old terms.new) }
{
    let text = terms.text(id);
    terms.intern(more)?;
    Ok(text)
}

/// A text is kept, and held while a further one is.
#[tactic(auto, using(term_store::proofs::StoreLemmas::store_lemmas))]
fn first_of_two<'a>(terms: &mut Terms<'a>, text: &str, more: &str) -> Result<&'a str, Memory>
    ensures { IfOk result (λ t. t.now ≡ text.now) }
{
    let id = terms.intern(text)?;
    text_across_intern(terms, id, more)
}

#[test]
fn a_text_outlives_its_store(rt: HostRuntime) -> Result<(), Fail> {
    let arena = Bump::new(rt.alloc());
    let mut terms = Terms::new(rt.alloc(), &arena)?;
    let text = first_of_two(&mut terms, "<https://ex.org/a>", "\"a\"")?;
    assert_eq!(rt; terms.len(), 2usize);
    drop(terms);
    assert_eq!(rt; text, "<https://ex.org/a>");
    Ok(())
}

/// Texts of which some begin others, the empty text among them.
const TEXTS: [&str; 7] = ["", "_", "_:", "_:a", "a", "ab", "abc"];

/// The first of these texts that does not get its place as its number, or nothing past them.
fn first_out_of_place(terms: &mut Terms<'_>) -> Result<Option<usize>, Memory> {
    for (at, text) in TEXTS.iter().enumerate() {
        if number_of(terms, text)? as usize != at {
            return Ok(Some(at));
        }
    }
    Ok(None)
}

#[test]
fn texts_that_begin_others_differ(rt: HostRuntime) -> Result<(), Fail> {
    let arena = Bump::new(rt.alloc());
    let mut terms = Terms::new(rt.alloc(), &arena)?;
    assert_eq!(rt; first_out_of_place(&mut terms)?, None);
    assert_eq!(rt; first_out_of_place(&mut terms)?, None);
    assert_eq!(rt; terms.len(), TEXTS.len());
    Ok(())
}

/// Whether a text is of a blank node, asked of a store that keeps it.
#[tactic(auto, using(term_store::proofs::StoreLemmas::store_lemmas))]
fn is_kept_blank(terms: &mut Terms<'_>, text: &str) -> Result<bool, Memory>
    ensures { IfOk result (λ blank. blank ≡ begins_blank text.now) }
{
    let id = terms.intern(text)?;
    Ok(terms.is_blank(id))
}

/// Texts, and whether they are of blank nodes.
const BLANKS: [(&str, bool); 6] = [
    ("_:a", true),
    ("_:", true),
    ("_", false),
    ("", false),
    ("<_:a>", false),
    ("\"_:\"", false),
];

/// The first of these texts that is found to be of the other kind, if there is one.
fn first_of_another_kind(alloc: Global) -> Result<Option<&'static str>, Memory> {
    let arena = Bump::new(alloc);
    let mut terms = Terms::new(alloc, &arena)?;
    for (text, want) in &BLANKS {
        if is_kept_blank(&mut terms, text)? != *want {
            return Ok(Some(text));
        }
    }
    Ok(None)
}

#[test]
fn blank_nodes_begin_with_two_characters(rt: HostRuntime) -> Result<(), Fail> {
    assert_eq!(rt; first_of_another_kind(rt.alloc())?, None);
    Ok(())
}

fn quad(subject: u32, predicate: u32, object: u32, graph: Option<u32>) -> Quad {
    Quad {
        subject: TermId { index: subject },
        predicate: TermId { index: predicate },
        object: TermId { index: object },
        graph: graph.map(|index| TermId { index }),
    }
}

/// Subject, predicate, object and graph of statements, of which the first and the fourth are one.
const STATEMENTS: [(u32, u32, u32, Option<u32>); 6] = [
    (1, 1, 1, None),
    (0, 1, 2, Some(3)),
    (0, 1, 2, None),
    (1, 1, 1, None),
    (0, 0, 2, None),
    (0, 1, 2, Some(0)),
];

/// Each of them once, by subject, predicate, object and graph, where no graph comes first.
const ORDERED: [(u32, u32, u32, Option<u32>); 5] = [
    (0, 0, 2, None),
    (0, 1, 2, None),
    (0, 1, 2, Some(0)),
    (0, 1, 2, Some(3)),
    (1, 1, 1, None),
];

fn dataset(alloc: Global) -> Result<Quads, Memory> {
    let mut made = Vec::new(alloc);
    for (subject, predicate, object, graph) in &STATEMENTS {
        made.push(quad(*subject, *predicate, *object, *graph))?;
    }
    Ok(Quads::from_vec(made))
}

/// Whether these are the statements, in their order.
fn are_ordered(quads: &[Quad]) -> bool {
    quads.len() == ORDERED.len()
        && quads
            .iter()
            .zip(&ORDERED)
            .all(|(got, want)| *got == quad(want.0, want.1, want.2, want.3))
}

#[test]
fn repeats_are_dropped(rt: HostRuntime) -> Result<(), Fail> {
    let quads = dataset(rt.alloc())?;
    assert_eq!(rt; quads.len(), ORDERED.len());
    assert!(rt; !quads.is_empty());
    assert!(rt; are_ordered(quads.as_slice()));
    Ok(())
}

#[test]
fn nothing_is_a_dataset(rt: HostRuntime) {
    let none = Quads::new(rt.alloc());
    assert!(rt; none.is_empty());
    let made = Quads::from_vec(Vec::new(rt.alloc()));
    assert_eq!(rt; made.len(), 0usize);
    assert!(rt; made.as_slice().is_empty());
}
