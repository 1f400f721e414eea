//! Tests of groups of statements, and of what records and refusals say.
#![tactic(auto)]

#[cfg(test)]
mod groups;
#[cfg(test)]
mod records;
