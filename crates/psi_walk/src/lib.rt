//! What all commands share: a command as a tree of steps, how a run follows it, what it comes to, and the steps: a file
//! is read and judged, deals are made of words, a set is placed, the link is opened, a text is printed and a file is
//! written. It knows no command.
#![tactic(auto)]

mod deals;
mod files;
mod outcome;
mod placing;
mod showing;
mod steps;

pub use deals::{deals_of_seed, deals_of_words};
pub use files::{FromFile, read_as};
pub use outcome::{Outcome, Placements, outcome_of};
pub use placing::place_items;
pub use showing::print_shown;
pub use steps::{
    judge_record, open_link, print_text, read_bytes, session_status, status, write_word,
};
