//! Worked examples: both ends of a session over a link in memory, with what they answer, send and print, and every
//! command where each call of the outside fails in turn.
#![tactic(auto)]

#[cfg(test)]
mod receiving;
#[cfg(test)]
mod runs;
#[cfg(test)]
mod sending;
#[cfg(test)]
mod walks;
