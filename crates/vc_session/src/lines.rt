//! The canonical lines of statements without blank nodes, and the bytes that an issuer key signs.

ghost use Rattle.std.specs.Prelude.{◌≡◌, List, map, IfOk};
ghost use Rattle.std.specs.List.{concat};
ghost use Rattle.sha2.specs.Sha256.{sha256};
ghost use Rattle.nquads.specs.Terms.{Statement};
ghost use Rattle.nquads.specs.Spelling.{text_quad};
ghost use Rattle.nquads.specs.Lines.{canonical_lines};
ghost use Rattle.stmt_groups.specs.Records.{sign_data};
ghost use Rattle.vc_session.specs.Issuing.{no_label};

use key_device::KeyName;
use nquads::{Memory, Sequence, Text, TextLabels, TextQuads};
use std::alloc::Global;

/// The canonical lines of a dataset without blank nodes (RDF Dataset Canonicalization, canonical
/// N-Quads form).
pub(crate) fn lines_of(alloc: Global, quads: &TextQuads) -> Result<Sequence<Text>, Memory>
    ensures { (q : List Statement) → quads.now ≡ map text_quad q
        → IfOk result (λ lines. lines ≡ canonical_lines no_label q) }
{
    let labels = TextLabels::new(alloc);
    let lines = nquads::canonical_lines(alloc, quads, &labels)?;
    Ok(lines)
}

/// The SHA-256 digest of the lines, one after another.
fn digest_of(alloc: Global, lines: &[Text]) -> Result<[u8; 32], Memory>
    ensures { IfOk result (λ digest. digest ≡ sha256 (concat lines.now)) }
{
    let text = nquads::join(alloc, lines)?;
    Ok(digest_mac::sha256(&text))
}

/// The bytes that an issuer key signs (Data Integrity ECDSA Cryptosuites 1.0, serializeSignData): the
/// digest of the options' lines, the statement key and the digest of the mandatory lines.
pub(crate) fn signed_bytes(
    alloc: Global,
    options: &[Text],
    key: &KeyName,
    mandatory: &[Text],
) -> Result<Vec<u8>, Memory>
    ensures { IfOk result (λ bytes. bytes.items ≡ sign_data options.now key.now mandatory.now) }
{
    let options = digest_of(alloc, options)?;
    let mandatory = digest_of(alloc, mandatory)?;
    let mut bytes = Vec::new(alloc);
    bytes.extend_from_slice(&options)?;
    bytes.extend_from_slice(&key.bytes)?;
    bytes.extend_from_slice(&mandatory)?;
    Ok(bytes)
}
