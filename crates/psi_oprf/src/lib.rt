//! The codes and bins of items, the tags of words, and the columns that hide codes. No call but `item_candidates` takes
//! memory.
#![tactic(auto)]

mod bin_batches;
mod code_batches;
mod columns;
mod formulas;
mod hashing;
mod messages;
mod tag_batches;

pub use bin_batches::candidates_of;
pub use code_batches::{codes, codes_at};
pub use columns::{change, mask, open_column, xor_columns};
pub use formulas::{Tag, bin_of, candidates, code, own_tag, peer_tag, tag_into};
pub use hashing::item_candidates;
pub use psi_bits::Word512;
pub use tag_batches::tags;

#[cfg(test)]
mod batch_tests;
#[cfg(test)]
mod tests;
