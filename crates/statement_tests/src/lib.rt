//! Tests of terms, of N-Quads, and of flat documents.
#![tactic(auto)]

#[cfg(test)]
mod flat_documents;
#[cfg(test)]
mod lines;
#[cfg(test)]
mod reading;
#[cfg(test)]
mod terms;
#[cfg(test)]
mod writing;
