//! Records of sessions: written while a session runs, and read again.
#![tactic(auto)]

mod errors;
mod judging;
pub mod laws;
mod layout;
mod reading;
mod recorder;
mod session;

pub use errors::BadRecord;
pub use reading::read_record;
pub use recorder::{Recorder, write_record};
pub use session::LoggedSession;

#[cfg(test)]
mod tests;
