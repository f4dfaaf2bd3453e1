//! The lines of a file that are compared, one by one, with those of another file.
#![tactic(auto)]

mod lines;
#[cfg(test)]
mod tests;

pub use lines::Lines;
