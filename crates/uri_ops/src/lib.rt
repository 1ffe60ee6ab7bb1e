//! What is done with references: building, normalising and resolving them.
#![tactic(auto)]

pub mod build;
pub mod convert;
#[doc(hidden)]
pub mod laws;
pub mod normalize;
#[doc(hidden)]
pub mod path;
#[doc(hidden)]
pub mod read_back;
pub mod resolve;
pub mod scheme_rules;
pub mod traits;
