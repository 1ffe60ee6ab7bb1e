//! The components of a reference, and the grammar of each kind.
#![tactic(auto)]

mod address_parser;
mod address_reader;
#[doc(hidden)]
pub mod address_text;
mod authority_parser;
pub mod component;
mod connect;
#[doc(hidden)]
pub mod core_text;
mod cursor;
mod default_ports;
pub mod error;
#[doc(hidden)]
pub mod fragment;
mod ip_literal;
#[doc(hidden)]
pub mod kind;
#[doc(hidden)]
pub mod kind_tables;
#[doc(hidden)]
pub mod laws;
pub mod net;
#[doc(hidden)]
pub mod packed_positions;
#[doc(hidden)]
pub mod parse;
#[doc(hidden)]
pub mod port;
#[doc(hidden)]
pub mod positions;
mod printing;
#[doc(hidden)]
pub mod scheme;
mod scheme_prefix;
#[doc(hidden)]
pub mod slicing;
