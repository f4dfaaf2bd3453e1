//! The command that shows what a session hides: `twin`.
#![tactic(auto)]

mod commands;
mod hiding;
mod twin;

pub use commands::carry_out;
pub use twin::twin_command;
