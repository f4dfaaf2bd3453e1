//! The definitions that every other crate's contracts speak of.
#![tactic(auto)]

pub mod laws;
pub mod plain;
