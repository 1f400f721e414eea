//! Why a text is no proof value.

ghost use Rattle.std.specs.Prelude.{◌≡◌};

use base_types::Memory;
use cbor_core::CborFault;
use std::fmt;

/// A part of a proof value, in the order of its list.
#[derive(Clone, Copy, Debug, PartialEq, Eq)]
pub enum Part {
    /// The list of the five parts itself.
    Array,
    BaseSignature,
    PublicKey,
    HmacKey,
    Signatures,
    Pointers,
    LabelMap,
    Indexes,
}

/// Why a text is no proof value of its kind: the first that applies, in this order.
#[derive(Clone, Copy, Debug, PartialEq, Eq)]
pub enum ValueFault {
    /// The text is not `u` and strict base64url without padding.
    NotMultibase,
    /// The bytes begin with no header of this kind of value, by either hash.
    Header,
    /// What follows is no item of CBOR. Places are counted after the three bytes.
    Cbor(CborFault),
    /// The item is no list of five, or a part or one of its elements has another kind.
    Shape(Part),
    /// A byte string of the part has another length: a digest, than its hash says.
    Length(Part),
    /// The indexes do not rise.
    Indexes,
    /// There was not enough memory.
    Memory,
}

impl From<Memory> for ValueFault {
    ghost use Rattle.proof_cbor.specs.declared.fault.ValueFault.TheVariants as fault;

    ghost from_gives = { λ _ e. e ≡ fault.Memory };

    fn from(_memory: Memory) -> ValueFault {
        ValueFault::Memory
    }
}

impl fmt::Display for Part {
    ghost use Rattle.std.specs.Prelude.{Some};
    ghost use Rattle.proof_cbor.specs.Lines.{part_name};

    ghost output = { λ part. Some (part_name part) };

    fn fmt<W: fmt::Write>(&self, f: &mut fmt::Formatter<W>) -> fmt::Result {
        match self {
            Part::Array => write!(f, "list of five parts"),
            Part::BaseSignature => write!(f, "base signature"),
            Part::PublicKey => write!(f, "public key"),
            Part::HmacKey => write!(f, "HMAC key"),
            Part::Signatures => write!(f, "list of signatures"),
            Part::Pointers => write!(f, "list of mandatory pointers"),
            Part::LabelMap => write!(f, "label map"),
            Part::Indexes => write!(f, "list of mandatory indexes"),
        }
    }
}

impl fmt::Display for ValueFault {
    ghost use Rattle.std.specs.Prelude.{Some};
    ghost use Rattle.proof_cbor.specs.Lines.{value_line};

    ghost output = { λ fault. Some (value_line fault) };

    fn fmt<W: fmt::Write>(&self, f: &mut fmt::Formatter<W>) -> fmt::Result {
        match self {
            ValueFault::NotMultibase => write!(f, "the text is not `u` and unpadded base64url"),
            ValueFault::Header => write!(f, "the three bytes of the kind do not come first"),
            ValueFault::Cbor(fault) => write!(f, "behind the header, {fault}"),
            ValueFault::Shape(part) => write!(
                f,
                "the {part}, or an item in it, has the wrong kind"
            ),
            ValueFault::Length(part) => {
                write!(f, "the {part}, or an item in it, has the wrong length")
            }
            ValueFault::Indexes => write!(f, "the mandatory indexes do not rise"),
            ValueFault::Memory => write!(f, "out of memory"),
        }
    }
}
