//! Tests of digests, of devices, and of the options of a proof.
#![tactic(auto)]

#[cfg(test)]
mod devices;
#[cfg(test)]
mod digests;
#[cfg(test)]
mod options;
