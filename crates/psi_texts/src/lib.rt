//! How a run ends, and the lines that name faults.
#![tactic(auto)]

mod status;
mod texts;

pub use status::{Status, status_number};
pub use texts::{LINE_ROOM, Line, fault_line};
