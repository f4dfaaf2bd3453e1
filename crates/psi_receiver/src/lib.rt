//! The receiver's end of a session: it finds its own tags in the sender's lists, as a machine over frames.
#![tactic(auto)]

mod blocks;
mod carrying;
mod inputs;
pub mod laws;
mod logged;
mod marking;
mod memory;
mod own;
mod phase;
mod preparing;
mod receiver;
mod rows;
mod run;
mod session;
#[cfg(test)]
mod session_tests;
mod steps;
mod stream;
#[cfg(test)]
mod stream_tests;
#[cfg(test)]
mod tests;

pub use logged::LoggedReceiver;
pub use marking::mark;
pub use psi_frames::{EndFault, Turn};
pub use receiver::ReceiverCore;
pub use rows::row_words;
pub use run::run_receiver;
pub use stream::receiver_stream;
