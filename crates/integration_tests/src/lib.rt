//! Tests of what neither a row of `crates/vectors/data` nor a clause can say: constants, formats,
//! messages, and runs of which a read or a write fails; and of what the programs print, before they
//! are proved.
#![tactic(auto)]

#[cfg(test)]
mod commands;
pub mod comparison;
#[cfg(test)]
mod failures;
#[cfg(test)]
mod lines;
#[cfg(test)]
mod messages;
#[cfg(test)]
mod printing;
#[cfg(test)]
mod rows;
#[cfg(test)]
mod streams;
#[cfg(test)]
mod values;
pub mod words;
