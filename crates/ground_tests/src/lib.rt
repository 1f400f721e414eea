//! Tests of what all crates stand on: text, words of JSON-LD, streams, and IRIs.
#![tactic(auto)]

#[cfg(test)]
mod iris;
#[cfg(test)]
mod streams;
#[cfg(test)]
mod texts;
#[cfg(test)]
mod words;
