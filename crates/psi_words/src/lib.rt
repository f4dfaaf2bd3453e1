//! The words of a command line: their forms, what they say, and the first that is bad.
#![tactic(auto)]

mod form;
mod values;

pub use form::{CommandForms, Form, bad_word, word_at};
pub use values::{counts_of, seed_of, session_of, sizes_of};
