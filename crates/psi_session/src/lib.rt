//! A whole session in memory, between both ends.
#![tactic(auto)]

mod playing;
mod session;
#[cfg(test)]
mod tests;
mod transcript;

pub use session::exchange;
pub use transcript::Transcript;
