//! What is done by lanes of `std::simd`: matrices are turned and words combined, each as its plain form does; and
//! SHA-256 (FIPS 180-4) of eight messages side by side, each of 56 to 119 bytes and so of two blocks with its padding.
//! No call takes memory.
#![tactic(auto)]

mod constants;
mod digests;
mod end_block;
mod flips;
mod flips_back;
#[cfg(test)]
mod hash_tests;
mod operators;
mod rounds;
mod schedule_words;
mod schedules;
#[cfg(test)]
mod tests;
mod tile;
mod words;
mod xors;

pub use digests::digests_of_two_blocks;
pub use end_block::EndBlock;
pub use flips::flip;
pub use flips_back::flip_back;
pub use schedules::Schedules;
pub use tile::flip_tile;
pub use xors::{mask_xor, xor_bytes};
