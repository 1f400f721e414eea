//! Tests of labels: first-degree hashes, n-degree hashes, and canonical forms.
#![tactic(auto)]

#[cfg(test)]
mod canonical_forms;
#[cfg(test)]
mod cases;
#[cfg(test)]
mod chains;
#[cfg(test)]
mod first_degree;
#[cfg(test)]
mod hmac;
#[cfg(test)]
mod n_degree;
#[cfg(test)]
mod node_tables;
