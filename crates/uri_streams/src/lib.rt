//! Processes each line of an input, a URI, an IRI or a reference, from any reader to any writer.
#![tactic(auto)]

pub mod checks;
pub mod command;
pub mod command_line;
mod cut;
pub mod failure;
mod fault;
pub mod job;
mod json;
pub mod laws;
mod line_ends;
mod line_result;
mod lines;
mod mending;
mod met;
mod output;
mod queries;
mod results;
pub mod run;
pub mod source;
pub mod status;
mod step;
mod targets;
mod task;
