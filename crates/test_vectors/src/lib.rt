//! Rows of what the libraries are asked and of what they must return, as texts, and their run over
//! any writer. `crates/vectors/data/README.txt` says how a row is written.
#![tactic(auto)]

mod ascii_hosts;
mod basic;
mod conversions;
mod encoded;
mod evaluate;
mod fields;
mod kinds;
mod mending;
mod orders;
mod parsed;
mod references;
mod relative;
mod row;
pub mod run;
mod settings;

pub use row::{Outcome, Row, push_rows, run_row};
