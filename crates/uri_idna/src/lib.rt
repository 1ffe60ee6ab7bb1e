//! Hosts as names for DNS: in ASCII, by UTS 46, with the flags of RFC 3987, section 3.1.
#![tactic(auto)]

pub mod error;
pub mod hosts;
pub mod references;

pub use error::AsciiHostError;
pub use hosts::ascii_host;
pub use references::{to_uri_with_ascii_host, with_ascii_host};
