//! What the crates above stand on: the limits, the words of a command, lists of places, the outside as a
//! trait, and worlds in memory.
#![tactic(auto)]

mod faults;
mod folder;
mod incoming;
mod limits;
mod memory;
mod opening;
mod places;
mod quiet;
mod schedule;
mod tag_length;
mod words;
mod world;

pub use faults::{Failed, Fault, FaultKind, NoMemory, ReadFault};
pub use limits::{
    FILE_LIMIT, INBOX_ROOM, LIMIT_ITEMS, LINE_LIMIT, RECORD_LIMIT, ROW_LIMIT, STASH_LIMIT,
    TAG_LIMIT, USUAL_STASH, bins, rows,
};
pub use memory::MemWorld;
pub use opening::{Opened, Side};
pub use places::{Pairs, Places};
pub use quiet::QuietMem;
pub use tag_length::TagLength;
pub use words::Words;
pub use world::{World, print_all};

#[cfg(test)]
mod tests;
