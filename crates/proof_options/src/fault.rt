//! The fields of options, and why options are refused.

use base_types::Memory;
use std::fmt;

/// Which proof the options are of: its cryptosuite. Data Integrity ECDSA Cryptosuites 1.0.
#[derive(Clone, Copy, Debug, PartialEq, Eq)]
pub enum Suite {
    /// Selective disclosure: `ecdsa-sd-2023`.
    Selective,
    /// Of a whole document: `ecdsa-rdfc-2019`.
    Whole,
}

/// What of a proof is not as it must be, in the order in which it is refused.
#[derive(Clone, Copy, Debug, PartialEq, Eq)]
pub enum Field {
    /// There is no proof, or it is no object.
    Proof,
    /// `@context` stands in it.
    Context,
    /// `type` is not `DataIntegrityProof`.
    ProofType,
    /// `cryptosuite` is not that of the suite.
    Cryptosuite,
    /// `created` stands in it and is no stamp.
    Created,
    /// `expires` stands in it and is no stamp.
    Expires,
    /// `verificationMethod` is no text.
    VerificationMethod,
    /// `proofPurpose` is no text.
    ProofPurpose,
    /// `proofValue` is no text in a secured document, or stands in options by themselves.
    ProofValue,
}

/// Why options or a secured document are refused.
#[derive(Clone, Copy, Debug, PartialEq, Eq)]
pub enum OptionFault {
    /// This field is not as it must be, and all before it are.
    Bad(Field),
    /// Out of memory.
    Memory,
}

impl fmt::Display for Field {
    /// The name of the member.
    fn fmt<W: fmt::Write>(&self, f: &mut fmt::Formatter<W>) -> fmt::Result {
        match self {
            Field::Proof => f.write_str("proof"),
            Field::Context => f.write_str("@context"),
            Field::ProofType => f.write_str("type"),
            Field::Cryptosuite => f.write_str("cryptosuite"),
            Field::Created => f.write_str("created"),
            Field::Expires => f.write_str("expires"),
            Field::VerificationMethod => f.write_str("verificationMethod"),
            Field::ProofPurpose => f.write_str("proofPurpose"),
            Field::ProofValue => f.write_str("proofValue"),
        }
    }
}

impl fmt::Display for OptionFault {
    fn fmt<W: fmt::Write>(&self, f: &mut fmt::Formatter<W>) -> fmt::Result {
        match self {
            OptionFault::Bad(field) => write!(f, "`{field}` is not as a proof must have it"),
            OptionFault::Memory => f.write_str("out of memory"),
        }
    }
}

impl From<Memory> for OptionFault {
    ghost use Rattle.std.specs.Prelude.{◌≡◌};
    ghost use Rattle.proof_options.specs.declared.fault.OptionFault.TheVariants as fault;

    ghost from_gives = { λ _ e. e ≡ fault.Memory };

    fn from(_error: Memory) -> OptionFault {
        OptionFault::Memory
    }
}
