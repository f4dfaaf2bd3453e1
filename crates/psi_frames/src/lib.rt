//! The frames of a session: their bytes, the boxes that they leave from and come into, and what is wrong
//! with bytes where one frame is expected. The profile is psi's own.
#![tactic(auto)]

mod column;
mod done;
mod end;
mod expect;
mod frame;
mod header;
mod hello;
mod inbox;
mod judging;
pub mod laws;
mod outbox;
mod reasons;
mod room;
mod tags;
mod talk;
#[cfg(test)]
mod talk_tests;
#[cfg(test)]
mod tests;
mod turns;
mod values;

pub use column::{COLUMN_HEAD, columns_size};
pub use done::DONE_SIZE;
pub use end::End;
pub use expect::Expect;
pub use frame::{Frame, put};
pub use hello::HELLO_SIZE;
pub use inbox::Inbox;
pub use outbox::Outbox;
pub use reasons::{BadFrame, Reason};
pub use tags::{BLOCK_TAGS, TAGS_HEAD, lists_size, tag_at};
pub use talk::converse;
pub use turns::{EndFault, Turn};
