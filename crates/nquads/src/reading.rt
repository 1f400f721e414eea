//! N-Quads read into a store (RDF 1.1 N-Quads).

ghost use Rattle.std.specs.Prelude.{◌≡◌, ◌≤◌, ℕ, List, All, Err, IfErr, IfOk, length, map, position};
ghost use Rattle.std.specs.Option.{option_copied};
ghost use Rattle.term_store.specs.Store.{Grows};
ghost use Rattle.base_types.specs.Sets.{SameElements};
ghost use Rattle.nquads.specs.Terms.{Statement};
ghost use Rattle.nquads.specs.Spelling.{text_quad};
ghost use Rattle.nquads.specs.Stored.{IsKnown, quad_texts};
ghost use Rattle.nquads.specs.Reading.{HasMoreBlanks, HasMoreStatements, IsFirstBadLine, SaysDataset, is_line_end};
ghost use Rattle.nquads.specs.declared.fault.NqFault.TheVariants.{At, TooManyBlanks, TooManyStatements};
ghost use Rattle.nquads.specs.Internal.Lines.{after_line, first_line, past_feed, past_line_end};
ghost use Rattle.nquads.specs.Internal.Storing.{IsReadFault, IsReadOf, IsSet, IsSetFault, IsTextFault, KeepsText};

use crate::blanks::blank_ids;
use crate::fault::NqFault;
use crate::storing::{MOST_STATEMENTS, differ, with_line};
use std::alloc::Global;
use term_store::{Quad, Quads, Terms};

/// How many blank nodes the statements of a text may mention.
const MOST_BLANKS: usize = 4_096;

fn is_line_end(byte: u8) -> bool
    ensures { result ≡ is_line_end byte }
{
    byte == b'\n' || byte == b'\r'
}

/// The place of the first LF or CR.
fn line_end(bytes: &[u8]) -> Option<usize>
    ensures { result ≡ position is_line_end bytes.now }
{
    bytes.iter().position(|byte| is_line_end(*byte))
}

/// What follows an LF in front.
fn past_feed(bytes: &[u8]) -> &[u8]
    ensures { result.now ≡ past_feed bytes.now }
{
    let Some((first, rest)) = bytes.split_first() else {
        return bytes;
    };
    if *first == b'\n' {
        return rest;
    }
    bytes
}

/// What follows the end of a line, which is LF, CR LF or CR.
fn past_line_end(bytes: &[u8]) -> Option<&[u8]>
    ensures { option_copied result ≡ past_line_end bytes.now }
{
    let (first, rest) = bytes.split_first()?;
    if *first == b'\r' {
        return Some(past_feed(rest));
    }
    Some(rest)
}

/// The first line, and what follows it and its end.
fn cut_line(bytes: &[u8]) -> (&[u8], Option<&[u8]>)
    ensures line { result.0.now ≡ first_line bytes.now }
    ensures more { option_copied result.1 ≡ after_line bytes.now }
{
    let end = line_end(bytes).unwrap_or(bytes.len());
    let (line, rest) = bytes.split_at(end);
    (line, past_line_end(rest))
}

/// The statements that the text says, perhaps with repeats, by the numbers of the store.
fn read_text<'a>(alloc: Global, terms: &mut Terms<'a>, bytes: &[u8]) -> Result<Vec<Quad>, NqFault>
    ensures grows { Grows terms.old terms.new }
    ensures ok { IfOk result (λ v. KeepsText bytes.now terms.new v.items) }
    ensures fault { IfErr result (IsTextFault bytes.now) }
{
    let mut quads = Vec::new(alloc);
    let mut rest = bytes;
    loop {
        let at = bytes.len() - rest.len();
        let (line, more) = cut_line(rest);
        quads = match with_line(alloc, terms, line, at as u64, quads) {
            Ok(kept) => kept,
            Err(fault) => return Err(fault),
        };
        match more {
            Some(next) => rest = next,
            None => return Ok(quads),
        }
    }
}

/// The statements, each once, if they are not too many, and their blank nodes neither.
fn set_of(alloc: Global, terms: &Terms<'_>, quads: Vec<Quad>) -> Result<Quads, NqFault>
    requires { All (IsKnown terms.now) quads.items }
    ensures ok { IfOk result (λ set. IsSet terms.now quads.items set) }
    ensures fault { IfErr result (IsSetFault terms.now quads.items) }
{
    let set = Quads::from_vec(quads);
    if set.len() > MOST_STATEMENTS {
        return Err(NqFault::TooManyStatements(MOST_STATEMENTS as u64));
    }
    let ids = blank_ids(alloc, terms, set.as_slice())?;
    if ids.len() > MOST_BLANKS {
        return Err(NqFault::TooManyBlanks(MOST_BLANKS as u64));
    }
    Ok(set)
}

fn read_all<'a>(alloc: Global, terms: &mut Terms<'a>, bytes: &[u8]) -> Result<Quads, NqFault>
    ensures grows { Grows terms.old terms.new }
    ensures ok { IfOk result (λ quads. IsReadOf bytes.now terms.new quads) }
    ensures fault { IfErr result (IsReadFault bytes.now) }
{
    let quads = match read_text(alloc, terms, bytes) {
        Ok(quads) => quads,
        Err(fault) => return Err(fault),
    };
    differ(terms);
    set_of(alloc, terms, quads)
}

/// Reads a text of N-Quads: its statements, each once, by the numbers of their terms in the store,
/// which keeps these. Lines end with LF, CR LF or CR, and an empty line or a comment says nothing.
///
/// # Errors
///
/// `At`: the line that begins at this byte is no line of N-Quads. It is the first that is none.
/// `TooManyStatements`, `TooManyBlanks`: the text says more than 20,000 different statements, or they
/// mention more than 4,096 different blank nodes. `Memory`: there was not enough memory. The store
/// has only grown.
pub fn read<'a>(alloc: Global, terms: &mut Terms<'a>, bytes: &[u8]) -> Result<Quads, NqFault>
    ensures grows { Grows terms.old terms.new }
    ensures known { IfOk result (λ quads. All (IsKnown terms.new) quads) }
    ensures ok { IfOk result (λ quads. (q : List Statement) × SaysDataset bytes.now q
        × SameElements (map (quad_texts terms.new) quads) (map text_quad q)) }
    ensures few { IfOk result (λ quads. length quads ≤ 20000) }
    ensures few_blanks { IfOk result (λ _. HasMoreBlanks bytes.now 4096 → ⊥) }
    ensures at { (n : ℕ) → result ≡ Err (At n) → IsFirstBadLine bytes.now n }
    ensures statements { (n : ℕ) → result ≡ Err (TooManyStatements n)
        → (n ≡ 20000) × HasMoreStatements bytes.now 20000 }
    ensures blanks { (n : ℕ) → result ≡ Err (TooManyBlanks n)
        → (n ≡ 4096) × HasMoreBlanks bytes.now 4096 }
{
    read_all(alloc, terms, bytes)
}
