//! The items of a file: its lines in their normal form, each once, in the order of their first occurrence.
#![tactic(auto)]

mod errors;
mod hashing;
mod items;
pub mod laws;
mod lines;
mod making;
#[cfg(test)]
mod tests;

pub use errors::BadItems;
pub use hashing::digest;
pub use items::Items;
pub use lines::NormalLine;
pub use making::{MadeFile, make_file};
