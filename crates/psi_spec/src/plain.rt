//! Plain programs of the definitions: each one's contract is a definition, so that what it answers
//! can be compared with what other programs computed.
mod bits;
mod deals;
mod formulas;
mod streams;

pub use bits::bit_of;
pub use deals::{DealHead, deal_head};
pub use formulas::{bin, code, item_digest, sha256, tag};
pub use streams::{column, key_stream};

#[cfg(test)]
mod tests;
