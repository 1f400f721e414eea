//! Tests of CBOR and of proof values.
#![tactic(auto)]

#[cfg(test)]
mod items;
#[cfg(test)]
mod proof_values;
