//! The commands that run one end of a session over a link: `send` and `receive`.
#![tactic(auto)]

mod commands;
mod receive;
mod send;

pub use commands::carry_out;
pub use receive::receive_command;
pub use send::send_command;
