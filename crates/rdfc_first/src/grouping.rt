//! First-degree hashes, from the sorted lines of all mentions (RDF Dataset Canonicalization, 4.6.3).

ghost use Rattle.std.specs.Prelude.{◌≡◌, ◌<◌, List, All, length, map, IfOk};
ghost use Rattle.std.specs.List.{concat};
ghost use Rattle.std.specs.List.Sorted.{IsStrictlySortedBy};
ghost use Rattle.std.specs.Ordering.{nat_cmp};
ghost use Rattle.base_types.specs.Sets.{AllDiffer};
ghost use Rattle.digest_mac.specs.Digests.{digits};
ghost use Rattle.nquads.specs.Terms.{Statement};
ghost use Rattle.nquads.specs.Spelling.{text_quad};
ghost use Rattle.nquads.specs.Stored.{IsKnown, quad_texts};
ghost use Rattle.nquads.specs.FirstDegree.{AreFirstHashes};
ghost use Rattle.rdfc_first.specs.Blanks.{AreNamed};
ghost use Rattle.rdfc_first.specs.Internal.Grouping.{AreHashesOf, InBlankOrder, blank_hash, run_of};

use crate::mentions::{MentionLine, mention_lines};
use base_types::Memory;
use digest_mac::{Hash, digest_hex};
use nquads::BlankHash;
use std::alloc::Global;
use term_store::{Quads, TermId, Terms};

/// Names each blank node of the dataset once, with its first-degree hash, in the order of their
/// numbers in the store. RDF Dataset Canonicalization, 4.6, Hash First Degree Quads.
///
/// # Errors
///
/// `Memory`: there is no memory for the lines or the hashes.
pub fn first_hashes(
    alloc: Global,
    terms: &Terms<'_>,
    quads: &Quads,
    hash: Hash,
) -> Result<Vec<BlankHash>, Memory>
    requires known { All (IsKnown terms.now) quads.now }
    ensures exact { (q : List Statement) → map (quad_texts terms.now) quads.now ≡ map text_quad q
        → IfOk result (λ hashes. AreFirstHashes (digits hash) terms.now q hashes.items) }
    ensures named { IfOk result (λ hashes.
        All (AreNamed terms.now (map (λ h. h.blank) hashes.items)) quads.now) }
    ensures numbers { IfOk result (λ hashes.
        All (λ h. h.blank.index < length terms.now) hashes.items) }
    ensures order { IfOk result (λ hashes.
        IsStrictlySortedBy nat_cmp (map (λ h. h.blank.index) hashes.items)) }
{
    tell_apart(terms);
    let mut lines = mention_lines(alloc, terms, quads.as_slice())?;
    lines.sort_unstable();
    let hashes = hashes_of(alloc, lines.as_slice(), hash)?;
    Ok(hashes)
}

/// No two numbers have one text, so blank nodes are told apart by number.
fn tell_apart(terms: &Terms<'_>)
    ensures { AllDiffer terms.now }
{
    let _count = terms.len();
}

/// The hash of each blank node whose lines these are.
fn hashes_of(alloc: Global, lines: &[MentionLine], hash: Hash) -> Result<Vec<BlankHash>, Memory>
    requires { InBlankOrder lines.now }
    ensures { IfOk result (λ hashes. AreHashesOf (digits hash) lines.now hashes.items) }
{
    let mut hashes = Vec::new(alloc);
    let mut rest = lines;
    while let Some(first) = rest.first() {
        let (run, later) = rest.split_at(run_length(rest, first.blank));
        let next = hash_of(alloc, first.blank, run, hash)?;
        hashes.push(next)?;
        rest = later;
    }
    Ok(hashes)
}

/// How many of the first lines are those of one blank node.
fn run_length(lines: &[MentionLine], blank: TermId) -> usize
    ensures { result ≡ run_of blank lines.now }
{
    let mut length = 0;
    for line in lines {
        if line.blank != blank {
            return length;
        }
        length += 1;
    }
    length
}

fn hash_of(
    alloc: Global,
    blank: TermId,
    lines: &[MentionLine],
    hash: Hash,
) -> Result<BlankHash, Memory>
    ensures { IfOk result (λ h.
        h ≡ blank_hash blank (digits hash (concat (map (λ m. m.line) lines.now)))) }
{
    let text = join_lines(alloc, lines)?;
    Ok(BlankHash {
        blank,
        hash: digest_hex(hash, text.as_slice()),
    })
}

/// The lines, one after another.
fn join_lines(alloc: Global, lines: &[MentionLine]) -> Result<Vec<u8>, Memory>
    ensures { IfOk result (λ bytes. bytes.items ≡ concat (map (λ m. m.line) lines.now)) }
{
    let mut bytes = Vec::new(alloc);
    for line in lines {
        bytes.extend_from_slice(line.line.as_bytes())?;
    }
    Ok(bytes)
}
