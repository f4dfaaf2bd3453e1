//! The words of the rows of paired lines: lines of two lists of one length that are compared one by one.
#![tactic(auto)]

pub mod laws;
#[cfg(test)]
mod tests;
mod words;

pub use words::pair_words;
