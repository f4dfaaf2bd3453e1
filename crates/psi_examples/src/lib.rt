//! Worked examples: whole commands over a world in memory, with what they answer and what they print. Those over a link
//! stand in a crate beside this one.
#![tactic(auto)]

#[cfg(test)]
mod auditing;
#[cfg(test)]
mod dealing;
#[cfg(test)]
mod fault_lines;
#[cfg(test)]
mod local;
#[cfg(test)]
mod making;
#[cfg(test)]
mod meetings;
#[cfg(test)]
mod printing;
#[cfg(test)]
mod refusals;
#[cfg(test)]
mod renewing;
#[cfg(test)]
mod runs;
#[cfg(test)]
mod twins;
#[cfg(test)]
mod words;
