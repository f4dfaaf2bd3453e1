//! The auditor: it plays a session again from both ends' inputs and compares it with its record.
#![tactic(auto)]

mod colliding;
mod comparing;
mod inputs;
mod judging;
pub mod laws;
mod naming;
mod peer;
mod rows;
mod strangers;
#[cfg(test)]
mod tests;
mod verdict;

pub use judging::audit;
pub use verdict::Verdict;
