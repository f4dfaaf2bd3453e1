//! The commands that need one machine alone: `local`, which runs both ends of a session in memory, `trial`, which does
//! so on made lists, and `make`, which writes such lists.
#![tactic(auto)]

mod commands;
mod local;
mod make;
mod playing;
mod transcript;
mod trial;

pub use commands::carry_out;
pub use local::local_command;
pub use make::make_command;
pub use trial::trial_command;
