//! The deals of both ends of a session: made of a seed, read from files and written, and compared.
#![tactic(auto)]

mod arrays;
mod columns;
mod dealing;
mod errors;
mod files;
mod head;
mod judging;
mod old_files;
mod pairing;
mod receiver;
mod role;
mod seeds;
mod sender;

pub use columns::fill_column;
pub use dealing::deal;
pub use errors::{BadDeal, DealField};
pub use files::{read_receiver, read_sender, write_receiver, write_sender};
pub use old_files::{OldDeal, read_old};
pub use pairing::deals_differ;
pub use receiver::ReceiverDeal;
pub use sender::SenderDeal;

#[cfg(test)]
mod old_tests;
#[cfg(test)]
mod tests;
