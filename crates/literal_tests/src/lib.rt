//! Tests of the texts of JSON literals.
#![tactic(auto)]

#[cfg(test)]
mod texts;
