//! References that lead from a base to a target: the inverse of resolving (RFC 3986, section 5.2).
#![tactic(auto)]

mod ends;
pub mod laws;
mod paths;
mod pieces;
mod places;
mod reference;
mod relative;
pub mod relativize;

pub use relativize::{Relativize, Relativizer};
