//! What users of `fluent_uri` write: small programs over that crate alone, each with a contract
//! that says what it does. `docs/CALLING.md` goes through them, and quotes them.
#![tactic(auto, using(fluent_uri::proofs::Calling::calling))]

pub mod attributes;
pub mod errors;
pub mod frontier;
pub mod links;
pub mod normal;
pub mod owned;
pub mod pairs;
pub mod parts;
pub mod reach;
pub mod refusal;
pub mod relative;
pub mod ruled;
pub mod segments;
pub mod service;
pub mod visits;
