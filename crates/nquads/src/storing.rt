//! Statements that are kept while a text is read.

ghost use Rattle.std.specs.Prelude.{◌≡◌, ◌∷◌, ◌++◌, [], All, IfErr, IfOk, OnOk};
ghost use Rattle.base_types.specs.Sets.{AllDiffer, SameElements};
ghost use Rattle.term_store.specs.Store.{Grows};
ghost use Rattle.nquads.specs.Stored.{IsKnown};
ghost use Rattle.nquads.specs.Internal.Storing.{AreTooMany, IsGraphAt, IsLineFault, IsQuadAt, KeepsLine};

use crate::fault::NqFault;
use crate::line::{Said, line_said};
use crate::quads::TextQuad;
use base_types::{Memory, Text};
use std::alloc::Global;
use term_store::{Quad, Quads, TermId, Terms};

/// How many statements a text may say.
pub(crate) const MOST_STATEMENTS: usize = 20_000;

/// The number of a graph's text, where there is one.
#[tactic(auto, using(term_store::proofs::StoreLemmas::store_lemmas))]
fn keep_graph<'a>(terms: &mut Terms<'a>, graph: &Option<Text>) -> Result<Option<TermId>, Memory>
    ensures grows { Grows terms.old terms.new }
    ensures ok { IfOk result (λ id. IsGraphAt terms.new graph.now id) }
{
    let Some(text) = graph else {
        return Ok(None);
    };
    let id = terms.intern(text.as_str())?;
    Ok(Some(id))
}

/// The numbers of a statement's texts.
fn keep_quad<'a>(terms: &mut Terms<'a>, quad: &TextQuad) -> Result<Quad, Memory>
    ensures grows { Grows terms.old terms.new }
    ensures ok { IfOk result (λ kept. IsQuadAt terms.new quad.now kept) }
{
    let subject = terms.intern(quad.subject.as_str())?;
    let predicate = terms.intern(quad.predicate.as_str())?;
    let object = terms.intern(quad.object.as_str())?;
    let graph = keep_graph(terms, &quad.graph)?;
    Ok(Quad {
        subject,
        predicate,
        object,
        graph,
    })
}

/// No two texts of the store are one: so two statements with the same texts have the same numbers.
/// It does nothing; a proof asks for what it says.
pub(crate) fn differ(terms: &Terms<'_>)
    ensures { AllDiffer terms.now }
{
    let _count = terms.len();
}

/// The same statements, each once, if they are not too many.
fn settled(alloc: Global, quads: Vec<Quad>) -> Result<Vec<Quad>, NqFault>
    ensures same { IfOk result (λ v. SameElements v.items quads.items) }
    ensures fault { IfErr result (AreTooMany quads.items) }
{
    let set = Quads::from_vec(quads);
    if set.len() > MOST_STATEMENTS {
        return Err(NqFault::TooManyStatements(MOST_STATEMENTS as u64));
    }
    let kept = copy_of(alloc, set.as_slice())?;
    Ok(kept)
}

fn copy_of(alloc: Global, quads: &[Quad]) -> Result<Vec<Quad>, Memory>
    ensures { IfOk result (λ v. v.items ≡ quads.now) }
{
    Ok(Vec::from_slice(alloc, quads)?)
}

/// The statements with one more. Repeats are dropped when twice as many are there as a text may say,
/// so that the time to sort is shared by as many lines.
fn with_quad(alloc: Global, quads: Vec<Quad>, quad: Quad) -> Result<Vec<Quad>, NqFault>
    ensures same { IfOk result (λ v. SameElements v.items (quads.items ++ quad ∷ [])) }
    ensures fault { IfErr result (AreTooMany (quads.items ++ quad ∷ [])) }
{
    let mut quads = quads;
    push(&mut quads, quad)?;
    if quads.len() > 2 * MOST_STATEMENTS {
        return settled(alloc, quads);
    }
    Ok(quads)
}

fn push(quads: &mut Vec<Quad>, quad: Quad) -> Result<(), Memory>
    ensures { OnOk result (quads.new.items ≡ quads.old.items ++ quad ∷ []) }
{
    quads.push(quad)?;
    Ok(())
}

/// The statements with what a line says that begins at this byte.
pub(crate) fn with_line<'a>(
    alloc: Global,
    terms: &mut Terms<'a>,
    line: &[u8],
    at: u64,
    quads: Vec<Quad>,
) -> Result<Vec<Quad>, NqFault>
    requires { All (IsKnown terms.old) quads.items }
    ensures grows { Grows terms.old terms.new }
    ensures ok { IfOk result (λ v. KeepsLine line.now terms.new quads.items v.items) }
    ensures fault { IfErr result (IsLineFault line.now at terms.new quads.items) }
{
    match line_said(alloc, line)? {
        Said::Bad => Err(NqFault::At(at)),
        Said::Nothing => Ok(quads),
        Said::Statement(quad) => {
            let kept = keep_quad(terms, &quad)?;
            differ(terms);
            with_quad(alloc, quads, kept)
        }
    }
}
