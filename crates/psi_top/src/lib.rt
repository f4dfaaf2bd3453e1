//! The commands by their names: the tree and the promise of each, and `run`, which does all that the program does.
#![tactic(auto)]

mod entry;

pub use entry::run;
pub use psi_texts::{Status, fault_line, status_number};
pub use psi_walk::Placements;
