//! The commands of the program `uritool`, over any two writers.
#![tactic(auto)]

mod command;
pub mod kinds;
mod lines;
mod links;
pub mod mending;
pub mod normal;
pub mod refusal;
pub mod run;
pub mod sink;
pub mod table;
mod target;
mod usage;
