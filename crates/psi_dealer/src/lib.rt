//! The commands that write deal files: `deal`, which makes both of a seed, and `renew`, which makes one of version 1
//! anew.
#![tactic(auto)]

mod commands;
mod deal;
mod renew;

pub use commands::carry_out;
pub use deal::deal_command;
pub use renew::renew_command;
