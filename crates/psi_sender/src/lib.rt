//! The sender's end of a session: from the receiver's columns to the lists of its own tags, as a machine over frames.
#![tactic(auto)]

mod answer;
mod hashes;
pub mod laws;
mod memory;
mod phase;
mod run;
mod sender;
mod session;
mod steps;
#[cfg(test)]
mod tests;

pub use psi_frames::{EndFault, Turn};
pub use run::run_sender;
pub use sender::SenderCore;
