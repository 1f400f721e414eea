//! Canonical and temporary identifiers (RDF Dataset Canonicalization, 4.5).
ghost use Rattle.std.specs.Prelude.{◌≡◌, ◌++◌, codes, decimal, OnOk};

use base_types::Memory;
use itoa::Buffer;

/// Puts `_:c14n` and a number in the canonical issuer at the end.
pub(crate) fn push_canonical(text: &mut Vec<u8>, number: usize) -> Result<(), Memory>
    ensures { OnOk result (text.new.items ≡ text.old.items ++ (codes "_:c14n" ++ decimal number)) }
{
    text.extend_from_slice(b"_:c14n")?;
    push_decimal(text, number)
}

/// Puts `_:b` and a number in an issuer of one n-degree call at the end.
pub(crate) fn push_temporary(text: &mut Vec<u8>, number: usize) -> Result<(), Memory>
    ensures { OnOk result (text.new.items ≡ text.old.items ++ (codes "_:b" ++ decimal number)) }
{
    text.extend_from_slice(b"_:b")?;
    push_decimal(text, number)
}

fn push_decimal(text: &mut Vec<u8>, number: usize) -> Result<(), Memory>
    ensures { OnOk result (text.new.items ≡ text.old.items ++ decimal number) }
{
    let mut digits = Buffer::new();
    text.extend_from_slice(digits.format(number).as_bytes())?;
    Ok(())
}
