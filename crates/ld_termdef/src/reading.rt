//! How a text is read as an IRI. JSON-LD 1.1 API, section 5.2.

ghost use Rattle.std.specs.Prelude.{◌≡◌, ◌++◌, IfOk};
ghost use Rattle.std.specs.Option.{option_copied};
ghost use Rattle.json_tree.specs.Places.{first_of};
ghost use Rattle.ld_termdef.specs.Contexts.{active_of};
ghost use Rattle.ld_termdef.specs.Iris.{has_terms, has_base, prefix_iri, compact_row, vocab_row, base_row, term_rows, other_rows, reads};
ghost use Rattle.ld_termdef.specs.Internal.Readings.{keyword_row, mapped_row, parts_row, colon_row, resolved_row};

use crate::base::BaseIri;
use crate::context::ActiveContext;
use crate::definition::{Mapped, TermDef};
use base_types::{Memory, Text};
use iri_ref::{IriFault, is_absolute, resolve, split_at_colon};
use ld_words::{LdKeyword, is_keyword_form, keyword};
use std::alloc::Global;

/// What a text may be. JSON-LD 1.1 API, section 5.2, the flags `vocab` and `document relative`.
#[derive(Clone, Copy, Debug, PartialEq, Eq)]
pub enum Mode {
    /// An IRI relative to the base, or a compact one: `document relative` alone.
    Document,
    /// A term, or what stands behind the vocabulary: `vocab` alone.
    Vocab,
    /// Either: both flags.
    Both,
}

/// What a text reads as.
#[derive(Debug, Drop)]
pub enum ReadIri {
    /// A term that maps to nothing, or a text that looks like a keyword.
    Nothing,
    Word(LdKeyword),
    /// An IRI. That it is absolute is asked where one is needed.
    Iri(Text),
    /// A blank node identifier, by its label without `_:`. The label may be a bad one.
    Blank(Text),
    /// No row applies: the text as it is.
    Relative(Text),
}

/// Whether a text is looked up as a term, and may stand behind the vocabulary.
fn looks_up_terms(mode: Mode) -> bool
    ensures { result ≡ has_terms mode }
{
    match mode {
        Mode::Document => false,
        Mode::Vocab | Mode::Both => true,
    }
}

/// Whether a text may be relative to the base.
fn looks_at_base(mode: Mode) -> bool
    ensures { result ≡ has_base mode }
{
    match mode {
        Mode::Vocab => false,
        Mode::Document | Mode::Both => true,
    }
}

/// The second text behind the first.
fn join(alloc: Global, first: &str, second: &str) -> Result<Text, Memory>
    ensures { IfOk result (λ whole. whole ≡ first.now ++ second.now) }
{
    let mut whole = Text::from_str(alloc, first)?;
    whole.push_str(second)?;
    Ok(whole)
}

/// A keyword, or the form of one.
#[tactic(auto, using(crate::proofs::RowOrder::keyword_steps))]
fn keyword_read(text: &str) -> Option<ReadIri>
    ensures { result ≡ keyword_row text.now }
{
    match keyword(text) {
        Some(word) => Some(ReadIri::Word(word)),
        None => {
            if is_keyword_form(text) {
                Some(ReadIri::Nothing)
            } else {
                None
            }
        }
    }
}

/// What a term maps to, where the mode looks terms up.
fn mapped_read(mapped: &Mapped, mode: Mode) -> Result<Option<ReadIri>, Memory>
    ensures { IfOk result (λ read. read ≡ mapped_row mode mapped.now) }
{
    if let Mapped::Word(word) = mapped {
        return Ok(Some(ReadIri::Word(*word)));
    }
    if !looks_up_terms(mode) {
        return Ok(None);
    }
    match mapped {
        Mapped::Iri(iri) => Ok(Some(ReadIri::Iri(iri.clone()?))),
        Mapped::Nothing => Ok(Some(ReadIri::Nothing)),
        Mapped::Word(word) => Ok(Some(ReadIri::Word(*word))),
    }
}

/// The rows that look the whole text up.
#[tactic(auto, using(crate::proofs::RowOrder::term_steps))]
fn term_read(active: &ActiveContext, text: &str, mode: Mode) -> Result<Option<ReadIri>, Memory>
    ensures { IfOk result (λ read.
        read ≡ first_of (term_rows (active_of active.now).current mode text.now)) }
{
    if let Some(read) = keyword_read(text) {
        return Ok(Some(read));
    }
    match active.definition(text) {
        Some(definition) => mapped_read(&definition.mapped, mode),
        None => Ok(None),
    }
}

/// The IRI of a term that may be a prefix.
fn prefix_of(definition: &TermDef) -> Option<&str>
    ensures { option_copied result ≡ prefix_iri definition.now }
{
    if !definition.prefix {
        return None;
    }
    match &definition.mapped {
        Mapped::Iri(iri) => Some(iri.as_str()),
        Mapped::Nothing => None,
        Mapped::Word(_) => None,
    }
}

/// A compact IRI.
#[tactic(auto, using(crate::proofs::RowOrder::compact_steps))]
fn compact_read(
    alloc: Global,
    active: &ActiveContext,
    prefix: &str,
    suffix: &str,
) -> Result<Option<ReadIri>, Memory>
    ensures { IfOk result (λ read.
        read ≡ compact_row (active_of active.now).current (prefix.now, suffix.now)) }
{
    match active.definition(prefix) {
        Some(definition) => match prefix_of(definition) {
            Some(iri) => Ok(Some(ReadIri::Iri(join(alloc, iri, suffix)?))),
            None => Ok(None),
        },
        None => Ok(None),
    }
}

/// The rows of a text that is parted around a colon.
#[tactic(auto, using(crate::proofs::RowOrder::parts_steps))]
fn parts_read(
    alloc: Global,
    active: &ActiveContext,
    text: &str,
    prefix: &str,
    suffix: &str,
) -> Result<Option<ReadIri>, Memory>
    ensures { IfOk result (λ read.
        read ≡ parts_row (active_of active.now).current text.now (prefix.now, suffix.now)) }
{
    if prefix == "_" {
        return Ok(Some(ReadIri::Blank(Text::from_str(alloc, suffix)?)));
    }
    if suffix.as_bytes().starts_with(b"//") {
        return Ok(Some(ReadIri::Iri(Text::from_str(alloc, text)?)));
    }
    compact_read(alloc, active, prefix, suffix)
}

/// The rows of a colon.
#[tactic(auto, using(crate::proofs::RowOrder::colon_steps))]
fn colon_read(alloc: Global, active: &ActiveContext, text: &str) -> Result<Option<ReadIri>, Memory>
    ensures { IfOk result (λ read. read ≡ colon_row (active_of active.now).current text.now) }
{
    match split_at_colon(text) {
        Some((prefix, suffix)) => parts_read(alloc, active, text, prefix, suffix),
        None => Ok(None),
    }
}

/// The vocabulary and the text.
#[tactic(auto, using(crate::proofs::RowOrder::vocab_steps))]
fn vocab_read(
    alloc: Global,
    active: &ActiveContext,
    text: &str,
    mode: Mode,
) -> Result<Option<ReadIri>, Memory>
    ensures { IfOk result (λ read.
        read ≡ vocab_row (active_of active.now).current mode text.now) }
{
    if !looks_up_terms(mode) {
        return Ok(None);
    }
    match &active.current.get().vocab {
        Some(vocab) => Ok(Some(ReadIri::Iri(join(alloc, vocab.as_str(), text)?))),
        None => Ok(None),
    }
}

/// What the text means at the base.
#[tactic(auto, using(crate::proofs::RowOrder::base_steps))]
fn base_read(
    alloc: Global,
    active: &ActiveContext,
    text: &str,
    mode: Mode,
) -> Result<Option<ReadIri>, Memory>
    ensures { IfOk result (λ read.
        read ≡ base_row (active_of active.now).current mode text.now) }
{
    if !looks_at_base(mode) {
        return Ok(None);
    }
    match &active.current.get().base {
        Some(base) => resolved(alloc, base, text),
        None => Ok(None),
    }
}

/// What the text means at this base.
#[tactic(auto, using(crate::proofs::RowOrder::resolved_steps))]
fn resolved(alloc: Global, base: &BaseIri, text: &str) -> Result<Option<ReadIri>, Memory>
    ensures { IfOk result (λ read. read ≡ resolved_row base.now text.now) }
{
    match resolve(alloc, base.as_str(), text) {
        Ok(iri) => Ok(Some(ReadIri::Iri(iri))),
        Err(IriFault::BadIri(_)) => Ok(None),
        Err(IriFault::Memory) => Err(Memory),
    }
}

/// The rows that do not look the whole text up.
#[tactic(auto, using(crate::proofs::RowOrder::other_steps))]
fn other_read(
    alloc: Global,
    active: &ActiveContext,
    text: &str,
    mode: Mode,
) -> Result<Option<ReadIri>, Memory>
    ensures { IfOk result (λ read.
        read ≡ first_of (other_rows (active_of active.now).current mode text.now)) }
{
    if let Some(read) = colon_read(alloc, active, text)? {
        return Ok(Some(read));
    }
    if is_absolute(text) {
        return Ok(Some(ReadIri::Iri(Text::from_str(alloc, text)?)));
    }
    if let Some(read) = vocab_read(alloc, active, text, mode)? {
        return Ok(Some(read));
    }
    base_read(alloc, active, text, mode)
}

/// How `text` is read in an active context. JSON-LD 1.1 API, section 5.2.2.
///
/// In this order: a keyword; the form of a keyword, which is nothing; a term that maps to a
/// keyword; with `vocab`, a term. A text with a colon after its first character: a blank node
/// identifier; as it is, where `//` follows the colon; a compact IRI, where the prefix is a term
/// with the prefix flag. An absolute IRI; with `vocab`, the vocabulary and the text; with `document
/// relative`, what it means at the base. Otherwise it is relative.
///
/// # Errors
///
/// `Memory`: there is no memory for the text that it reads as.
#[tactic(auto, using(crate::proofs::RowOrder::reads_steps))]
pub fn expand_iri(
    alloc: Global,
    active: &ActiveContext,
    text: &str,
    mode: Mode,
) -> Result<ReadIri, Memory>
    ensures { IfOk result (λ read. read ≡ reads (active_of active.now).current mode text.now) }
{
    if let Some(read) = term_read(active, text, mode)? {
        return Ok(read);
    }
    match other_read(alloc, active, text, mode)? {
        Some(read) => Ok(read),
        None => Ok(ReadIri::Relative(Text::from_str(alloc, text)?)),
    }
}
