//! What callers of `fluent_uri` write, with no proof of their own.
//!
//! Each condition of a public call is met twice: at a literal, and after the public test that the
//! docs of the call name. A module that begins with `#![tactic(auto)]` needs no hint. The others
//! need the one line that is below, once for the crate. So this crate fails its check if a
//! condition or a law no longer gives callers what they need.
#![tactic(auto, using(fluent_uri::proofs::Calling::calling))]

pub mod addresses;
pub mod any_kind;
pub mod bases;
pub mod building;
pub mod characters;
pub mod counts;
pub mod decoded;
pub mod delimiters;
pub mod echoes;
pub mod encoding;
pub mod kinds;
pub mod laws;
pub mod literals;
pub mod own_encoder;
pub mod owned_texts;
pub mod sets;
pub mod settings;
pub mod steps;
pub mod tables;
pub mod tested_by_rules;
pub mod texts;
