//! Placement, as in cuckoo hashing with a stash: each item gets a row of its own, one of its three bins or a row of
//! the stash, or a crowded list shows that there is no such placement.
#![tactic(auto)]

mod checking;
mod errors;
mod moves;
mod placement;
mod placing;
mod search;
mod seating;
mod slot;
mod table;

pub use checking::check_placement;
pub use errors::{BadSlots, NoFit};
pub use placement::Placement;
pub use placing::place;
pub use slot::Slot;

#[cfg(test)]
mod tests;
