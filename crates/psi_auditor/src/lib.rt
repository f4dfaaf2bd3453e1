//! The command that judges a recorded session: `audit`.
#![tactic(auto)]

mod audit;
mod commands;
mod findings;

pub use audit::audit_command;
pub use commands::carry_out;
