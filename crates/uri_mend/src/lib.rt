//! The least change that makes a text a reference (RFC 3986, sections 2.1 and 4.1; RFC 3987,
//! section 3.1).
#![tactic(auto)]

mod buffer;
mod component;
pub mod error;
pub mod laws;
mod link;
pub mod mending;
mod octets;
mod tail;
pub mod trimming;

pub use error::MendError;
pub use mending::Mend;
pub use trimming::trim_link;
