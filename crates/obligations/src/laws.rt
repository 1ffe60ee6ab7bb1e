//! What a caller of `fluent_uri` proves from its contracts alone: each function's contract is a
//! law, and its body no more than the calls that the law speaks of.
#![tactic(auto)]

pub mod addresses;
pub mod by_rules;
pub mod comparing;
pub mod converting;
pub mod decoding;
pub mod dots;
pub mod empty;
pub mod equivalence;
pub mod errors;
pub mod grammar;
pub mod json;
pub mod leading;
pub mod lines;
pub mod mending;
pub mod normalising;
pub mod octets;
pub mod ordering;
pub mod parsing;
pub mod printed_rules;
pub mod removing;
pub mod splits;
pub mod swapping;
pub mod unreserved;
